ghost use Rattle.std.specs.Prelude.{◌≡◌, ◌≤◌, ◌+◌, ◌++◌, codes, length};
ghost use Rattle.ask_seats.specs.Replies.{reply_of, reply_text, line_text};

use airy_index::Key;
use airy_io::LineText;
use amp_terms::write_value;
use frac128::Frac;

/// What an ask tells.
#[derive(Drop)]
pub enum Answer {
    /// The value of a planned key, with the power of the letter.
    Value(Frac, u16),
    /// The shape doesn't cover the key: every solution has 0 there.
    Zero,
    /// The sum of a planned key leaves the range.
    Over,
    /// A planned key rests on this key, which has no value.
    Blocked(Key),
    /// The cell of a planned key wasn't filled when the board was looked at; the word that said so.
    NotYet { word: u64 },
    /// The Euler number is above the bound.
    Beyond,
    /// An index isn't below dim.
    BadIndex,
}

impl Answer {
    /// The answer's line.
    #[tactic(auto, unfolding(crate::specs::Replies::line_text))]
    pub fn line(&self) -> LineText
        ensures { result ≡ line_text (reply_of self.now) }
    {
        let mut line = LineText::new();
        self.put_text(&mut line);
        line.put(b"\n");
        line
    }

    /// Puts the answer's text at the end of a line, without its line feed.
    #[tactic(auto, unfolding(crate::specs::Replies::reply_of, crate::specs::Replies::reply_text))]
    fn put_text(&self, line: &mut LineText)
        requires { length line.old + 150 ≤ 512 }
        ensures text { line.new ≡ line.old ++ reply_text (reply_of self.now) }
        ensures short { length line.new ≤ length line.old + 150 }
    {
        match self {
            Answer::Value(value, power) => {
                let mut number = [0u8; 96];
                let end = write_value(*value, *power, &mut number);
                line.put(&number[..end]);
            }
            Answer::Zero => line.put(b"zero"),
            Answer::Over => line.put(b"over"),
            Answer::Blocked(key) => {
                let mut name = [0u8; 128];
                let end = key.write_into(&mut name);
                line.put(b"rests on ");
                line.put(&name[..end]);
            }
            Answer::NotYet { word: _ } => line.put(b"not yet"),
            Answer::Beyond => line.put(b"beyond"),
            Answer::BadIndex => line.put(b"no such index"),
        }
    }
}
