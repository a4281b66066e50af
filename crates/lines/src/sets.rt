// Sets of classes, and how many classes each determinant has.
ghost use Rattle.std.specs.Prelude.{◌≡◌, ◌^◌, nat_lt};
ghost use Rattle.lines.specs.Sets.{has_class, set_fits, sets_meet, union, count_in_range, counts_in_range};

// Bit c - 1 stands for class c.
#[derive(Clone, Copy)]
pub struct ClassSet(pub u64);

impl ClassSet {
    pub const EMPTY: ClassSet = ClassSet(0);

    pub const HIGHEST_CLASS: u8 = 64;

    // Whether the class is in the set.
    pub fn has(self, class: u8) -> bool
        ensures { result ≡ has_class self class }
    {
        (1..=Self::HIGHEST_CLASS).contains(&class) && (self.0 >> (class - 1)) % 2 == 1
    }

    // Whether the set has a class, and none above the count.
    pub fn fits(self, count: u8) -> bool
        ensures { result ≡ set_fits count self }
    {
        self.0 != 0 && self.none_above(count)
    }

    fn none_above(self, count: u8) -> bool
        ensures { result ≡ nat_lt self.0 (2 ^ count) }
    {
        count >= Self::HIGHEST_CLASS || self.0 >> count == 0
    }

    // Whether some class is in both sets.
    pub fn meets(self, other: ClassSet) -> bool
        ensures { result ≡ sets_meet self other }
    {
        self.0 & other.0 != 0
    }

    // The classes of both sets.
    pub fn union(self, other: ClassSet) -> ClassSet
        ensures { result ≡ union self other }
    {
        ClassSet(self.0 | other.0)
    }
}

// How many classes each determinant has. Four numbers as `Classes` are, and a type of its own: a count is no class.
#[derive(Clone, Copy)]
pub struct Counts {
    pub vehicles: u8,
    pub times: u8,
    pub locations: u8,
    pub users: u8,
}

// Whether a count is from 1 to 64.
fn count_in_range(count: u8) -> bool
    ensures { result ≡ count_in_range count }
{
    (1..=ClassSet::HIGHEST_CLASS).contains(&count)
}

impl Counts {
    pub fn in_range(&self) -> bool
        ensures { result ≡ counts_in_range self.now }
    {
        count_in_range(self.vehicles)
            && count_in_range(self.times)
            && count_in_range(self.locations)
            && count_in_range(self.users)
    }
}
