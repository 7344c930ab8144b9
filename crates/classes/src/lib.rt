// The class of a refusal, told by its number.
#![tactic(auto)]

ghost use Rattle.std.specs.Prelude.{◌≡◌};
ghost use Rattle.classes.specs.Classes.{letter, class_with, class_letter};

// RULES 10's column of classes.
#[derive(Clone, Copy, Debug, PartialEq, Eq)]
enum Class {
    BadPayload,
    NotEnoughData,
    InvalidDatabase,
    Ours,
}

impl Class {
    // The class of the refusal with a number.
    fn with(number: u32) -> Option<Class>
        ensures { result ≡ class_with number }
    {
        match number {
            10 | 37 => Some(Class::InvalidDatabase),
            11..=13 | 20..=27 | 31..=36 | 38 => Some(Class::BadPayload),
            30 => Some(Class::NotEnoughData),
            39..=45 | 58..=60 => Some(Class::Ours),
            _ => None,
        }
    }

    // As ASCII has it.
    fn letter(self) -> u32
        ensures { result ≡ letter self }
    {
        u32::from(match self {
            Class::BadPayload => b'B',
            Class::NotEnoughData => b'N',
            Class::InvalidDatabase => b'D',
            Class::Ours => b'P',
        })
    }
}

// The letter of the class of a number, and 0 where no refusal has that number: numbers, since C has no other way to pass a refusal.
pub fn class_of(number: u32) -> u32
    ensures { result ≡ class_letter number }
{
    Class::with(number).map_or(0, Class::letter)
}
