// What can be wrong with the head of an image.
ghost use Rattle.std.specs.Prelude.{◌≡◌};
ghost use Rattle.image.specs.Faults.{number_of, place_of};

#[derive(Clone, Copy, Debug, PartialEq, Eq)]
pub enum ImageFault {
    // There are fewer bytes than a head has.
    Short,
    // The version is another than 1.
    Version,
    // The number of participants is outside its limits.
    Participants,
    // The number of accounts is above its limit.
    Accounts,
    // The stated length differs from the bytes given, or from the one that the counts give.
    Length,
}

impl ImageFault {
    // The number by which the fault is told. The rules give it to several faults, so it is no discriminant of the enum.
    pub fn number(self) -> u8
        ensures is_the_listed_number { result ≡ number_of self }
    {
        match self {
            ImageFault::Short => 13,
            ImageFault::Version => 12,
            ImageFault::Participants => 14,
            ImageFault::Accounts => 14,
            ImageFault::Length => 13,
        }
    }

    // The byte at which the fault is told.
    pub fn place(self) -> u16
        ensures is_the_listed_byte { result ≡ place_of self }
    {
        match self {
            ImageFault::Short => 0,
            ImageFault::Version => 0,
            ImageFault::Participants => 5,
            ImageFault::Accounts => 6,
            ImageFault::Length => 1,
        }
    }
}
