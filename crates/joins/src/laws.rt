// What holds of the definitions that the contracts cite.
ghost use Rattle.std.specs.Prelude.{Bool, List};
ghost use Rattle.walk.specs.Rows.{Row};
ghost use Rattle.joins.specs.JoinedLaws.{JoinedLaws};

// Every left row comes with every right row, in the order of the join.
pub fn joined_stand()
    ensures { (swing : Bool) (ls rs : List Row) → JoinedLaws swing ls rs }
{}
