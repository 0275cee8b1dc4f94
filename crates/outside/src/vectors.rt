// A line of outside vectors, and its parts.
ghost use Rattle.std.specs.Prelude.{◌≡◌};
ghost use Rattle.std.specs.Option.{option_map};
ghost use Rattle.outside.specs.Vectors.{passed_over, split_at, vector_in, both_texts, said};

// The longest input of vectors, in bytes, and what is told of a longer one.
pub const LONGEST: u32 = 67_108_864;

pub const TOO_LONG: &str = "standard input is longer than 64 MiB";

// What should come of an input.
#[derive(Clone, Copy)]
pub struct Vector<'a> {
    pub kind: &'a str,
    pub input: &'a str,
    pub expected: &'a str,
}

// Whether a line is empty or a comment.
pub fn is_passed_over(line: &str) -> bool
    ensures { result ≡ passed_over line.now }
{
    line.is_empty() || line.starts_with('#')
}

// What stands before and behind the first place of the mark, none where it stands nowhere; `split_once` says it by a relation.
fn split_at<'a>(text: &'a str, mark: &str) -> Option<(&'a str, &'a str)>
    ensures { option_map both_texts result ≡ split_at mark.now text.now }
{
    text.split_once(mark)
}

// The parts of `KIND INPUT => EXPECTED`, none where a line is not such.
pub fn read_vector(line: &str) -> Option<Vector<'_>>
    ensures { option_map said result ≡ vector_in line.now }
{
    let (question, expected) = split_at(line, " => ")?;
    let (kind, input) = split_at(question, " ")?;
    Some(Vector {
        kind,
        input,
        expected,
    })
}
