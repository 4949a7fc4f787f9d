ghost use Rattle.std.specs.Prelude.{◌≡◌, ◌<◌, ◌≤◌, None, IfOk, IsOk, length};

use facet_names::NoMemory;
use std::alloc::Global;
use std::cmp::Ordering;
use std::marker::Model;

/// A text of 1 to 65,536 bytes. Words are ordered by their bytes.
#[derive(Debug, Drop)]
pub struct Word {
    text: String,
}

impl Model for Word {
    ghost use Rattle.std.specs.Prelude.{List, ℕ, IsTrue, string_bytes};
    ghost use Rattle.facet_model.specs.Words.{is_word};

    ghost Value = { List ℕ };

    ghost view = { λ w. string_bytes w.text };

    ghost invariant = { λ w. IsTrue (is_word (string_bytes w.text)) };
}

impl Word {
    ghost use Rattle.facet_model.specs.Words.{word_of};

    /// Makes the word of a text, which it copies. It returns `None` if the text is empty or has more than 65,536 bytes.
    /// Errors: out of memory.
    pub fn new(alloc: Global, text: &str) -> Result<Option<Word>, NoMemory>
        ensures ok { IfOk result (λ o. o ≡ word_of text.now) }
        ensures none { word_of text.now ≡ None → IsOk result }
    {
        if text.is_empty() || text.len() > 65536 {
            return Ok(None);
        }
        let text = String::from_str(alloc, text)?;
        Ok(Some(Word { text }))
    }

    /// Returns the text.
    pub fn text(&self) -> &str
        ensures { result.now ≡ self.now }
    {
        self.text.as_str()
    }

    /// Copies the word. Errors: out of memory.
    pub fn dup(&self, alloc: Global) -> Result<Word, NoMemory>
        ensures { IfOk result (λ w. w ≡ self.now) }
    {
        let text = String::from_str(alloc, self.text.as_str())?;
        Ok(Word { text })
    }
}

impl PartialEq for Word {
    ghost use Rattle.std.specs.Cmp.{partial_equiv_from_equiv};
    ghost use Rattle.std.specs.Cmp.Lexicographic.{nat_list_eq_equiv};
    ghost use Rattle.std.specs.Str.{bytes_eq};

    ghost eq = { bytes_eq };

    ghost laws = { partial_equiv_from_equiv nat_list_eq_equiv };

    fn eq(&self, other: &Word) -> bool {
        self.text == other.text
    }
}

impl Eq for Word {
    ghost use Rattle.std.specs.Cmp.Lexicographic.{nat_list_eq_equiv};

    ghost laws = { nat_list_eq_equiv };
}

impl PartialOrd for Word {
    ghost use Rattle.facet_model.specs.Words.{word_cmp, word_order};
    ghost use Rattle.std.specs.Prelude.{Some};

    ghost partial_cmp = { λ x y. Some (word_cmp x y) };

    ghost laws = { word_order };

    fn partial_cmp(&self, other: &Word) -> Option<Ordering> {
        Some(self.cmp(other))
    }
}

impl Ord for Word {
    ghost use Rattle.std.specs.Prelude.{refl};
    ghost use Rattle.std.specs.Cmp.Lexicographic.{nat_list_cmp_total, texts_ties};
    ghost use Rattle.facet_model.specs.Words.{word_cmp};

    ghost cmp = { word_cmp };

    ghost total = { nat_list_cmp_total };

    ghost matches_partial_cmp = { λ x y. refl };

    ghost matches_eq = { texts_ties };

    fn cmp(&self, other: &Word) -> Ordering {
        self.text.cmp(&other.text)
    }
}
