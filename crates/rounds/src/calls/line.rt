// One line of the input: a letter, then decimal numbers up to 65535, each led by one space, then a line end.
//   Tail, Line       what stands at the end of a line under way; the line
//   Line::NEW        it has no byte yet
//   grown            one digit more of a number
//   Line::ended      the line behind its last byte
//   Line::with       the line with one byte more
// Bytes that are no such line give none.
ghost use Rattle.std.specs.Prelude.{◌≡◌, ◌+◌, ◌*◌, ◌<◌, ◌^◌, length, SomeIff};

// The letter or a whole number; the space that leads a number; or a number's digits, by their value.
#[derive(Clone, Copy)]
pub enum Tail {
    Whole,
    Space,
    Digits(u16),
}

// The letter, once there is one; how many numbers are written to the lent list.
#[derive(Clone, Copy)]
pub struct Line {
    pub letter: Option<u8>,
    pub count: usize,
    pub tail: Tail,
}

// One digit more of a number, as long as it fits 16 bits.
fn grown(value: u16, digit: u8) -> Option<u16>
    ensures { SomeIff result (value * 10 + digit < 2 ^ 16) (value * 10 + digit) }
{
    value.checked_mul(10)?.checked_add(u16::from(digit))
}

impl Line {
    pub const NEW: Line = Line {
        letter: None,
        count: 0,
        tail: Tail::Whole,
    };

    // The number at the end is whole: it goes into the list.
    pub fn ended(mut self, numbers: &mut [u16]) -> Option<Line>
        ensures { length numbers.new ≡ length numbers.old }
    {
        match self.tail {
            Tail::Whole => {}
            Tail::Space => return None,
            Tail::Digits(value) => {
                *numbers.get_mut(self.count)? = value;
                self.count += 1;
                self.tail = Tail::Whole;
            }
        }
        Some(self)
    }

    // One byte more, which is not the line's end.
    pub fn with(mut self, byte: u8, numbers: &mut [u16]) -> Option<Line>
        ensures { length numbers.new ≡ length numbers.old }
    {
        if self.letter.is_none() {
            self.letter = Some(byte);
            return Some(self);
        }
        match byte {
            b' ' => {
                self = self.ended(numbers)?;
                self.tail = Tail::Space;
            }
            b'0'..=b'9' => {
                let digit = byte - b'0';
                self.tail = Tail::Digits(match self.tail {
                    Tail::Whole => return None,
                    Tail::Space => u16::from(digit),
                    Tail::Digits(value) => grown(value, digit)?,
                });
            }
            _ => return None,
        }
        Some(self)
    }
}
