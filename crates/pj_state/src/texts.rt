// Texts as keys of an index.
ghost use Rattle.std.specs.Prelude.{◌≡◌};
ghost use Rattle.std.specs.Cmp.{on_equiv, partial_equiv_from_equiv};
ghost use Rattle.std.specs.Hash as fed;
ghost use Rattle.pj_state.specs.Keys.{same_text, text_key, text_hash};
ghost use Rattle.pj_state.specs.Alike.{text_hashes_agree, texts_equal};

use indexmap::Equivalent;
use pj_hash::text_hash;
use pj_value::SharedText;
use std::hash::{Hash, Hasher};

/// A text under which an index keeps tickets.
#[derive(Drop)]
pub struct TextKey {
    text: SharedText,
}

/// The same, lent.
#[derive(Clone, Copy)]
pub struct LentText<'a> {
    bytes: &'a [u8],
}

impl TextKey {
    /// The key of this text.
    pub fn of(text: SharedText) -> TextKey
        ensures { result ≡ text_key text }
    {
        TextKey { text }
    }
}

impl<'a> LentText<'a> {
    /// The key of this text, lent.
    pub fn of(text: &'a SharedText) -> LentText<'a>
        ensures { text_key result.bytes.now ≡ text_key text.now }
    {
        LentText {
            bytes: text.as_slice(),
        }
    }
}

impl PartialEq for TextKey {
    ghost eq = { same_text };

    ghost laws = { partial_equiv_from_equiv texts_equal };

    fn eq(&self, other: &TextKey) -> bool {
        self.text.as_slice() == other.text.as_slice()
    }
}

impl Eq for TextKey {
    ghost laws = { texts_equal };
}

impl Hash for TextKey {
    ghost hash_input = { λ key. fed.u64 (text_hash key) };

    ghost respects_eq = { λ x y t. text_hashes_agree x y t };

    fn hash<H: Hasher>(&self, state: &mut H) {
        state.write_u64(text_hash(self.text.as_slice()));
    }
}

impl<'a> PartialEq for LentText<'a> {
    ghost eq = { λ x y. same_text (text_key x.bytes.now) (text_key y.bytes.now) };

    ghost laws = { partial_equiv_from_equiv (on_equiv (λ x. text_key x.bytes.now) texts_equal) };

    fn eq(&self, other: &LentText<'a>) -> bool {
        self.bytes == other.bytes
    }
}

impl<'a> Eq for LentText<'a> {
    ghost laws = { on_equiv (λ x. text_key x.bytes.now) texts_equal };
}

impl<'a> Hash for LentText<'a> {
    ghost hash_input = { λ key. fed.u64 (text_hash (text_key key.bytes.now)) };

    ghost respects_eq = { λ x y t. text_hashes_agree (text_key x.bytes.now) (text_key y.bytes.now) t };

    fn hash<H: Hasher>(&self, state: &mut H) {
        state.write_u64(text_hash(self.bytes));
    }
}

impl<'a> Equivalent<TextKey> for LentText<'a> {
    ghost equivalent = { λ q. same_text (text_key q.bytes.now) };

    ghost respects_hash = { λ q k t. text_hashes_agree (text_key q.bytes.now) k t };

    ghost respects_eq = { λ q x y t. texts_equal.congr (text_key q.bytes.now) x y t };

    fn equivalent(&self, key: &TextKey) -> bool {
        self.bytes == key.text.as_slice()
    }
}
