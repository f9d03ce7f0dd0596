ghost use Rattle.script.specs.Requests.{FirstLine};
ghost use Rattle.script.specs.Script.{EndsAt, NeverEnds};
ghost use Rattle.std.specs.Option.{MatchOption};

const LINE_END: u8 = b'\n';

// No 0a ends these octets, the last of a text.
#[derive(Clone, Copy, Debug, PartialEq, Eq)]
pub struct Unended;

// A line without the 0a that ends it.
pub type Line<'a> = Result<&'a [u8], Unended>;

// Where the first line of a text ends.
fn end_of_line(text: &[u8]) -> Option<usize>
    ensures { MatchOption result (NeverEnds text.now) (λ i. EndsAt i text.now) }
{
    text.iter().position(|octet| *octet == LINE_END)
}

// The first line of a text and what follows it, if the text is not empty.
pub fn next_line(text: &[u8]) -> Option<(Line<'_>, &[u8])>
    ensures { FirstLine text.now result }
{
    match end_of_line(text) {
        Some(i) => Some((Ok(&text[..i]), &text[i + 1..])),
        None if text.is_empty() => None,
        None => Some((Err(Unended), &[])),
    }
}
