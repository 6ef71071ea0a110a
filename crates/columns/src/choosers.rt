// Pivot choosers: what one is, and two that look at the codes alone.
ghost use Rattle.std.specs.Prelude.{◌≡◌, List};
ghost use Rattle.columns.specs.Picks.{Pick, LawfulPick, fits, InWords, IsFirst, IsGreatest, topmost, greatest};
ghost use Rattle.columns.specs.Lemmas.Picks.{topmost_lawful, greatest_lawful};

// The longest list that a chooser picks from.
pub const MOST: usize = 96;

// Picks a place from a list of codes, each beside the number of its unknown.
pub trait Chooser {
    ghost pick: { Self → Pick };

    fn choose(&self, codes: &[u32], unknowns: &[usize]) -> Option<usize>
        ensures { result ≡ pick self.now codes.now unknowns.now };

    ghost lawful: { (s : Self) → LawfulPick (pick s) };
}

// Whether a chooser picks from these lists: they have one length, at most 96.
pub(crate) fn fits(codes: &[u32], unknowns: &[usize]) -> bool
    ensures { result ≡ fits codes.now unknowns.now }
{
    codes.len() == unknowns.len() && codes.len() <= MOST
}

// The first code that is not 0.
#[derive(Clone, Copy)]
pub struct Topmost;

impl Chooser for Topmost {
    ghost pick = { λ _. topmost };

    ghost lawful = { λ s. topmost_lawful };

    fn choose(&self, codes: &[u32], unknowns: &[usize]) -> Option<usize>
        ensures picked { result ≡ topmost codes.now unknowns.now }
        ensures in_words { InWords codes.now unknowns.now (IsFirst codes.now) result }
    {
        if !fits(codes, unknowns) {
            return None;
        }
        codes.iter().position(|code| *code != 0)
    }
}

// The largest code, the first among equals.
#[derive(Clone, Copy)]
pub struct Greatest;

impl Chooser for Greatest {
    ghost pick = { λ _. greatest };

    ghost lawful = { λ s. greatest_lawful };

    fn choose(&self, codes: &[u32], unknowns: &[usize]) -> Option<usize>
        ensures picked { result ≡ greatest codes.now unknowns.now }
        ensures in_words { InWords codes.now unknowns.now (IsGreatest codes.now) result }
    {
        if !fits(codes, unknowns) {
            return None;
        }
        let mut best = None;
        let mut top = 0;
        for (i, code) in codes.iter().enumerate() {
            if *code > top {
                top = *code;
                best = Some(i);
            }
        }
        best
    }
}
