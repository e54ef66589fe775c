// Attribute and object sets as masks: bit k stands for attribute or object k. Each method is one operation on the whole
// set; its contract is an equation with a definition of specs/Sets.antt, which holds for every width.
#![tactic(auto)]

ghost use Rattle.std.specs.Prelude.{◌≡◌, ◌<◌, ℕ};
ghost use Rattle.sets.specs.Sets.{has, within, within_each, ◌∩◌, ◌∪◌, ◌∖◌, single, insert, remove, is_empty};
ghost use Rattle.sets.specs.Sets.{rank, count, lowest, ATTRIBUTES, OBJECTS};

// Attributes are numbered from 0 on, and so are objects: how many of each there may be, and the sets of them.
pub const ATTRIBUTES: u32 = 32;

pub const OBJECTS: u32 = 64;

pub type AttributeSet = u32;

pub type ObjectSet = u64;

// A set as a mask of some width: its members are numbers below the width, and `members` is the mask as a number.
pub trait Mask: Copy {
    ghost width: { ℕ };

    ghost members: { Self → ℕ };

    // Whether k is a member.
    fn has(self, k: u32) -> bool
        requires { k < width }
        ensures { result ≡ has (members self) k };

    // Whether the set lies within another one: one test on the whole set.
    fn within(self, other: Self) -> bool
        ensures { result ≡ within (members self) (members other) };

    // The members of both.
    fn intersection(self, other: Self) -> Self
        ensures { members result ≡ members self ∩ members other };

    // The members of either.
    fn union(self, other: Self) -> Self
        ensures { members result ≡ members self ∪ members other };

    // The members that are none of another set.
    fn difference(self, other: Self) -> Self
        ensures { members result ≡ members self ∖ members other };

    // The set whose one member is k.
    fn single(k: u32) -> Self
        requires { k < width }
        ensures { members result ≡ single k };

    // Whether the set has no member.
    fn is_empty(self) -> bool
        ensures { result ≡ is_empty (members self) };

    // How many members the set has.
    fn count(self) -> u32
        ensures { result ≡ count width (members self) };

    // The lowest member, or the width where there is none.
    fn lowest(self) -> u32
        ensures { result ≡ lowest width (members self) };

    // The set with k as a member.
    final fn insert(self, k: u32) -> Self
        requires { k < width }
        ensures { members result ≡ insert (members self) k }
    {
        self.union(Self::single(k))
    }

    // The set without k.
    final fn remove(self, k: u32) -> Self
        requires { k < width }
        ensures { members result ≡ remove (members self) k }
    {
        self.difference(Self::single(k))
    }
}

// A set of attributes.
impl Mask for u32 {
    ghost width = { ATTRIBUTES };

    ghost members = { λ s. s };

    fn has(self, attribute: u32) -> bool {
        (self >> attribute) % 2 == 1
    }

    fn within(self, attributes: u32) -> bool {
        (self & attributes) == self
    }

    fn intersection(self, attributes: u32) -> u32 {
        self & attributes
    }

    fn union(self, attributes: u32) -> u32 {
        self | attributes
    }

    fn difference(self, attributes: u32) -> u32 {
        self ^ (self & attributes)
    }

    fn single(attribute: u32) -> u32 {
        1 << attribute
    }

    fn is_empty(self) -> bool {
        self == 0u32
    }

    fn count(self) -> u32 {
        u32::count_ones(self)
    }

    fn lowest(self) -> u32 {
        u32::trailing_zeros(self)
    }
}

// A set of objects.
impl Mask for u64 {
    ghost width = { OBJECTS };

    ghost members = { λ s. s };

    fn has(self, object: u32) -> bool {
        (self >> object) % 2 == 1
    }

    fn within(self, objects: u64) -> bool {
        (self & objects) == self
    }

    fn intersection(self, objects: u64) -> u64 {
        self & objects
    }

    fn union(self, objects: u64) -> u64 {
        self | objects
    }

    fn difference(self, objects: u64) -> u64 {
        self ^ (self & objects)
    }

    fn single(object: u32) -> u64 {
        1 << object
    }

    fn is_empty(self) -> bool {
        self == 0u64
    }

    fn count(self) -> u32 {
        u64::count_ones(self)
    }

    fn lowest(self) -> u32 {
        u64::trailing_zeros(self)
    }
}

// Whether s lies within t, asked attribute by attribute: the plain form of `within`, which the program does not use.
pub fn within_each(s: AttributeSet, t: AttributeSet) -> bool
    ensures { result ≡ within_each ATTRIBUTES s t }
{
    for k in 0..ATTRIBUTES {
        if s.has(k) {
            if !t.has(k) {
                return false;
            }
        }
    }
    true
}

// How many members lie below k: of a member, the place of its cell in a row.
pub fn rank(s: AttributeSet, k: u32) -> u32
    requires { k < ATTRIBUTES }
    ensures { result ≡ rank s k }
{
    let below = AttributeSet::single(k) - 1;
    (s & below).count_ones()
}
