// What a part asks for.
ghost use Rattle.std.specs.Prelude.{◌≡◌, not, ◌&&◌, ◌==◌};
ghost use Rattle.std.specs.Option.{option_map};
ghost use Rattle.kinds.specs.Kinds.{kind_meaning};
ghost use Rattle.text.specs.Coming.{coming};
ghost use Rattle.plan.specs.Format.{takes_t, takes_list, t_value, entries, head_of_line, head_made};
ghost use Rattle.plan.specs.Reading.{head_read, MakesPart};

use crate::field::Field;
use crate::name::KindName;
use crate::number::number;
use faults::PartFault;
use kinds::kind::Kind;
use std::alloc::Global;
use text::pieces::Pieces;

// A part whose list is still to be read.
#[derive(Clone, Copy)]
pub struct Head<'a> {
    pub kind: KindName,
    pub n: u16,
    // 0 where the kind takes none, since the makers take a number
    pub t: u16,
    pub entries: Pieces<'a>,
}

// The field t, which is 0 where the kind takes none.
fn t_number(kind: KindName, t: &[u8]) -> Option<u16>
    ensures { result ≡ t_value (takes_t kind) t.now }
{
    if kind.takes_t() {
        number(t)
    } else {
        (t == b"-".as_slice()).then_some(0)
    }
}

// The entries of the list, which are none where the kind takes none or n is 0.
fn list_entries(kind: KindName, n: u16, list: &[u8]) -> Option<Pieces<'_>>
    ensures { option_map coming result ≡ entries (takes_list kind && not (n == 0)) list.now }
{
    if kind.takes_list() && n != 0 {
        Some(Pieces::new(list, b' '))
    } else {
        (list == b"-".as_slice()).then_some(Pieces::none())
    }
}

impl<'a> Head<'a> {
    // What the line of a part asks for.
    pub fn of(line: Field<'a>) -> Option<Head<'a>>
        ensures { option_map head_read result ≡ head_of_line line.entry.bytes.now }
    {
        let fields = line.fields()?;
        let kind = KindName::of(fields.kind.bytes)?;
        let n = number(fields.n.bytes)?;
        let t = t_number(kind, fields.t.bytes)?;
        let entries = list_entries(kind, n, fields.list.bytes)?;
        Some(Head {
            kind,
            n,
            t,
            entries,
        })
    }

    // Makes the kind with its list as read.
    pub fn make(self, heap: Global, list: &[u16]) -> Result<Kind, PartFault>
        ensures { MakesPart kind_meaning result (head_made (head_read self.entry) list.now) }
    {
        Ok(self.kind.make(heap, self.n, self.t, list)?)
    }
}
