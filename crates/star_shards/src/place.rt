//! Where a byte of JSON stands: in how many brackets, and whether in a string.

ghost use Rattle.std.specs.Prelude.{◌≡◌, ◌+◌, ◌<◌, ◌≤◌, ◌^◌};
ghost use Rattle.star_shards.specs.Places as spec;

/// Whether a byte stands in a string, and after a backslash there.
#[derive(Clone, Copy, Debug, PartialEq, Eq)]
pub(crate) enum Mode {
    Plain,
    Quoted,
    Escaped,
}

/// Where a byte stands: whether in a string, and in how many brackets.
#[derive(Clone, Copy, Debug, PartialEq, Eq)]
pub(crate) struct Place {
    pub mode: Mode,
    pub depth: usize,
}

/// Whether a byte is a closing bracket.
#[inline(always)]
fn closes(byte: u8) -> bool
    ensures { result ≡ spec.closes byte }
{
    byte == b'}' || byte == b']'
}

/// The place after a byte in no string.
#[inline(always)]
fn after_plain(depth: usize, byte: u8) -> Place
    requires { depth < 2 ^ 63 }
    ensures { result ≡ spec.after_plain depth byte }
{
    match byte {
        b'"' => Place {
            mode: Mode::Quoted,
            depth,
        },
        b'{' | b'[' => Place {
            mode: Mode::Plain,
            depth: depth + 1,
        },
        b'}' | b']' => Place {
            mode: Mode::Plain,
            depth: depth.saturating_sub(1),
        },
        _ => Place {
            mode: Mode::Plain,
            depth,
        },
    }
}

/// The place after a byte in a string.
#[inline(always)]
fn after_quoted(depth: usize, byte: u8) -> Place
    ensures { result ≡ spec.after_quoted depth byte }
{
    match byte {
        b'"' => Place {
            mode: Mode::Plain,
            depth,
        },
        b'\\' => Place {
            mode: Mode::Escaped,
            depth,
        },
        _ => Place {
            mode: Mode::Quoted,
            depth,
        },
    }
}

impl Place {
    /// The first place.
    pub(crate) const START: Place = Place {
        mode: Mode::Plain,
        depth: 0,
    };

    /// Whether it is in no string and in no brackets.
    #[inline(always)]
    fn is_outermost(self) -> bool
        ensures { result ≡ spec.is_outermost self }
    {
        self.mode == Mode::Plain && self.depth == 0
    }

    /// Whether a byte here closes a bracket that was open before the first place.
    #[inline(always)]
    pub(crate) fn ends(self, byte: u8) -> bool
        ensures { result ≡ spec.ends self byte }
    {
        self.is_outermost() && closes(byte)
    }

    /// Whether a byte here is a comma in no string and in no brackets.
    #[inline(always)]
    pub(crate) fn separates(self, byte: u8) -> bool
        ensures { result ≡ spec.separates self byte }
    {
        self.is_outermost() && byte == b','
    }

    /// The place after a byte.
    #[inline(always)]
    #[tactic(auto, unfolding(crate::specs::Places::after))]
    pub(crate) fn after(self, byte: u8) -> Place
        requires { self.depth < 2 ^ 63 }
        ensures after { result ≡ spec.after self byte }
        ensures depth { result.depth ≤ self.depth + 1 }
    {
        match self.mode {
            Mode::Plain => after_plain(self.depth, byte),
            Mode::Quoted => after_quoted(self.depth, byte),
            Mode::Escaped => Place {
                mode: Mode::Quoted,
                depth: self.depth,
            },
        }
    }
}
