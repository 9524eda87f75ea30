// Writes what a walk is, its rows and their changes.
use super::trouble::Trouble;
use listing::listing;
use walk::Walk;

// A line on the walk, its listing and, where there are neighbours, their changes.
pub(crate) fn show<W: Walk>(rt: &HostRuntime, name: &str, walk: &mut W) -> Result<(), Trouble> {
    let size = walk.size();
    let width = walk.width();
    let steady = if walk.steady() {
        "steady"
    } else {
        "not steady"
    };
    println!(rt; "{name}: {size} rows of {width}, {steady}")?;
    let rows = listing(rt.alloc(), walk)?;
    print!(rt; "{rows}")?;
    if size > 1 {
        show_changes(rt, walk)?;
    }
    Ok(())
}

// The lowest and the highest place of each change, in the order of the labels.
fn show_changes<W: Walk>(rt: &HostRuntime, walk: &mut W) -> Result<(), Trouble> {
    print!(rt; "changes:")?;
    for label in 0..walk.size() {
        let _ = walk.seek(label);
        // At the last label there is no change.
        if let Ok(span) = walk.change() {
            let (lowest, highest) = (span.lowest, span.highest);
            print!(rt; " {lowest}-{highest}")?;
        }
    }
    println!(rt; "")?;
    Ok(())
}
