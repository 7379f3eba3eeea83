// The line that a program writes to standard error where it refuses.
#![tactic(auto)]

ghost use Rattle.std.specs.Prelude.{◌≡◌};
ghost use Rattle.refusal_line.specs.Line.{refusal_line};

use answers::Answer;
use text::Text;

// The longest line: the digits of a number of 64 bits and a line feed.
pub const LINE_LENGTH: usize = 21;

// Nothing under Done.
pub fn line(answer: Answer) -> Text<LINE_LENGTH>
    ensures { result ≡ refusal_line answer }
{
    let mut line = Text::new();
    if let Ok(()) = answer {
        return line;
    }
    line.push_decimal(answers::number(answer) as u64);
    line.push(b"\n");
    line
}
