// A chooser over another, which leaves marked unknowns free as long as it can.
ghost use Rattle.std.specs.Prelude.{◌≡◌, true, false, replicate, if◌then◌else◌, slice_set};
ghost use Rattle.columns.specs.Picks.{InWords, Spares, marked, keep_free};
ghost use Rattle.columns.specs.Lemmas.Picks.{keep_free_lawful};

use crate::choosers::{Chooser, MOST, fits};

// Marks for unknowns 0 to 95; a larger number counts as unmarked.
#[derive(Drop)]
pub struct KeepFree<C: Chooser> {
    below: C,
    marks: [bool; MOST],
}

impl<C: Chooser> KeepFree<C> {
    // Over another chooser, with nothing marked.
    pub fn over(below: C) -> KeepFree<C>
        ensures below { result.below ≡ below }
        ensures unmarked { result.marks ≡ replicate 96 false }
    {
        KeepFree {
            below,
            marks: [false; MOST],
        }
    }

    // Marks an unknown; a number from 96 on changes nothing.
    pub fn mark(&mut self, unknown: usize)
        ensures below { self.new.below ≡ self.old.below }
        ensures marked { self.new.marks ≡ slice_set self.old.marks unknown true }
    {
        if unknown < MOST {
            self.marks[unknown] = true;
        }
    }
}

// The code that is shown of an unknown: 0 where it is marked.
fn shown_code(marks: &[bool; MOST], unknown: usize, code: u32) -> u32
    ensures { result ≡ (if marked marks.now unknown then 0 else code) }
{
    match marks.get(unknown) {
        Some(true) => 0,
        _ => code,
    }
}

impl<C: Chooser> Chooser for KeepFree<C> {
    ghost pick = { λ s. keep_free (C.Chooser.pick s.below) s.marks };

    ghost lawful = { λ s. keep_free_lawful (C.Chooser.pick s.below) s.marks (C.Chooser.lawful s.below) };

    fn choose(&self, codes: &[u32], unknowns: &[usize]) -> Option<usize>
        ensures picked { result ≡ keep_free (C.Chooser.pick self.now.below) self.now.marks codes.now unknowns.now }
        ensures in_words { InWords codes.now unknowns.now (Spares self.now.marks codes.now unknowns.now) result }
    {
        if !fits(codes, unknowns) {
            return None;
        }
        let mut shown = [0; MOST];
        for (i, (code, unknown)) in codes.iter().zip(unknowns).enumerate() {
            shown[i] = shown_code(&self.marks, *unknown, *code);
        }
        let shown = &shown[..codes.len()];
        self.below
            .choose(shown, unknowns)
            .or_else(|| self.below.choose(codes, unknowns))
    }
}
