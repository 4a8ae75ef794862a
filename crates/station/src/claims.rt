// That groups part the other stations (specs/Partition.antt), that groups are nested (specs/Nested.antt), and who stands before a station in a
// group (specs/Ahead.antt), each a clause of a function that does nothing.

ghost use Rattle.station.specs.Partition.{NotInOwnGroup, InOneGroup};
ghost use Rattle.station.specs.Nested.{NestedGroups, NestedGroupsRemaining};
ghost use Rattle.station.specs.Ahead.{NamedStandsBefore, DueIfNobodyBefore, BeforeByDigits, BeforeInBlock, NoneDueInBlock};

// Groups (specs/Partition.antt, specs/Nested.antt).
pub fn groups()
    // No station is in a group of its own.
    ensures not_in_own_group { NotInOwnGroup }
    // Each other station is in just one group of a station.
    ensures in_one_group { InOneGroup }
    // A full group is its first station and that station's full groups at all lower levels.
    ensures nested_groups { NestedGroups }
    // The same with the absent numbers left out.
    ensures nested_groups_remaining { NestedGroupsRemaining }
{}

// Who stands before a station in a group (specs/Ahead.antt).
pub fn ahead()
    // Whom the answer names, where a station stands, is not suspected and stands before the one that asks.
    ensures named_stands_before { NamedStandsBefore }
    // The answer is "due" just where a station stands and nobody unsuspected stands before the one that asks.
    ensures due_if_nobody_before { DueIfNobodyBefore }
    // Who stands before a station goes by the binary digits of the distance.
    ensures before_by_digits { BeforeByDigits }
    // Who stands before a station at a distance does so in the whole block that begins with it.
    ensures before_in_block { BeforeInBlock }
    // Where a station stands and its distance is not due, no distance of the block is.
    ensures none_due_in_block { NoneDueInBlock }
{}
