// What files of rows and of proofs are made of: the head, and how wide a row is.
ghost use Rattle.std.specs.Prelude.{◌≡◌, IfSome};
ghost use Rattle.std.specs.Option.{is_some};
ghost use Rattle.set_file.specs.Layout.{some_parts, width, body_fits};
ghost use Rattle.set_file.specs.Reading.{whole};
ghost use Rattle.set_file.specs.Head.{IsHeadOf};

// The version of a file.
pub const VERSION: u8 = 1;

// The kind of a set file. It is the one kind that is read here: what each kind is for, a proof file's reader knows.
pub(crate) const KIND: u8 = 1;

// Whether rows may have n parts.
pub(crate) fn some_parts(n: u8) -> bool
    ensures { result ≡ some_parts n }
{
    (1..=16).contains(&n)
}

// How many bytes a row of n parts has.
pub fn width(n: u8) -> usize
    ensures { result ≡ width n }
{
    3 * usize::from(n)
}

// How many bytes a body has at most.
pub const BODY_LIMIT: usize = 4_194_304;

// Whether a body of rows may be this long.
pub fn body_fits(length: usize) -> bool
    ensures { result ≡ body_fits length }
{
    (1..=BODY_LIMIT).contains(&length)
}

// What a file says of itself in its first two bytes, and the body behind its head.
#[derive(Clone, Copy)]
pub struct Head<'a> {
    pub version: u8,
    pub kind: u8,
    pub body: &'a [u8],
}

impl<'a> Head<'a> {
    // The head of a file, or none where the file is not its head and a body of the length that the head says. Four bytes
    // fit a `usize`.
    pub fn read(file: &'a [u8]) -> Option<Self>
        ensures whole { is_some result ≡ whole file.now }
        ensures parts { IfSome result (IsHeadOf file.now) }
    {
        let [version, kind, a, b, c, d, body @ ..] = file else {
            return None;
        };
        let length = u32::from_be_bytes([*a, *b, *c, *d]) as usize;
        if length != body.len() {
            return None;
        }
        Some(Head {
            version: *version,
            kind: *kind,
            body,
        })
    }
}
