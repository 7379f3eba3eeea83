// What the desk program prints, from what it read.
#![tactic(auto)]

ghost use Rattle.std.specs.Prelude.{◌≡◌, ◌≤◌, length, take};
ghost use Rattle.desk_line.specs.Line.{desk_line};

use answer_line::LINE_LENGTH;
use text::Text;

// The line for an input of any length.
pub fn line(input: &[u8]) -> Text<LINE_LENGTH>
    ensures { result ≡ desk_line input.now }
{
    answer_line::line(desk_opening::open_input(input))
}

// The line for the first n bytes of a buffer, which are what was read.
pub fn line_of_first(buffer: &[u8], n: usize) -> Text<LINE_LENGTH>
    requires { n ≤ length buffer.now }
    ensures { result ≡ desk_line (take n buffer.now) }
{
    line(&buffer[0..n])
}
