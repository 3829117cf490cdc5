ghost use Rattle.std.specs.Prelude.{◌≡◌};
ghost use Rattle.lagstreams.specs.Lines.{longest_line, without_return};

/// The most octets of a line before its newline, a carriage return counted (profile).
pub const LONGEST_LINE: usize = 65_536;

// promise: a line loses one carriage return at its end
// contract: `without_return` (`Lines`)
/// The line without one carriage return at its end (profile).
pub fn without_return(line: &[u8]) -> &[u8]
    ensures { result.now ≡ without_return line.now }
{
    let len = line.len();
    if len > 0 && line[len - 1] == b'\r' {
        &line[..len - 1]
    } else {
        line
    }
}
