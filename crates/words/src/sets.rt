// A set of boats is one word: bit h says that boat h is a member.
ghost use Rattle.std.specs.Prelude.{◌+◌, ◌^◌, ◌≤◌, ◌<◌};
ghost use Rattle.words.specs.Sets.{WithMember, WithMemberIf, Deepest, HandedDown};

// The set with boat h.
pub fn with_member(set: u64, h: usize) -> u64
    requires { h < 64 }
    ensures { WithMember set h result }
{
    set | (1u64 << h)
}

// The set with boat h where it is to be a member; as it was where not.
pub fn with_member_if(set: u64, h: usize, member: bool) -> u64
    requires { h < 64 }
    ensures { WithMemberIf member set h result }
{
    set | ((member as u64) << h)
}

// The deepest member of a set that is not empty.
pub fn deepest_of(set: u64) -> usize
    requires { 0 < set }
    ensures { Deepest set result }
{
    63 - (u64::leading_zeros(set) as usize)
}

// The union of a set with that of h, its deepest member, without h.
pub fn handed_down(set: u64, of_h: u64, h: usize) -> u64
    requires h_bound { h < 64 }
    requires h_bound_2 { (2 ^ h ≤ set) × (set < 2 ^ (h + 1)) }
    requires of_h_bound { of_h < 2 ^ h }
    ensures { HandedDown set of_h h result }
{
    (set | of_h) - (1u64 << h)
}
