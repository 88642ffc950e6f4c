//! The members of an object, one after another.

ghost use Rattle.std.specs.Prelude.{◌≡◌, ◌≤◌, option_map, IfSome};
ghost use Rattle.serde_json.specs.Find.{as_object};
ghost use Rattle.serde_json.specs.View.{view, members_view};
ghost use Rattle.zair_read.specs.Told.{field, number_field, is_end, is_word, ends_with};

use crate::number::number_up_to;
use serde_json::Value;
use std::collections::btree_map::Iter;

/// The members of an object that are still to be read, in the byte order of their keys.
#[derive(Drop)]
pub(crate) struct Fields<'a> {
    pub(crate) left: Iter<'a, String, Value>,
}

// Whether a value is this text.
pub(crate) fn is_word(word: &str, value: &Value) -> bool
    ensures { result ≡ is_word word.now (view value.now) }
{
    match value.as_str() {
        Some(text) => text == word,
        None => false,
    }
}

impl<'a> Fields<'a> {
    /// The members of an object.
    pub(crate) fn of(value: &'a Value) -> Option<Fields<'a>>
        ensures { option_map (λ f. members_view f.left) result ≡ as_object (view value.now) }
    {
        match value {
            Value::Object(members) => Some(Fields {
                left: members.iter(),
            }),
            _ => None,
        }
    }

    /// The value of the first member, if it has this key.
    pub(crate) fn take(&mut self, key: &str) -> Option<&'a Value>
        ensures { option_map (λ v. (view v.now, members_view self.new.left)) result ≡ field key.now (members_view self.old.left) }
    {
        let (name, value) = self.left.next()?;
        if name.as_str() == key {
            Some(value)
        } else {
            None
        }
    }

    /// The number of the first member, if it has this key and its value is a whole number up to this one.
    pub(crate) fn number(&mut self, key: &str, most: u64) -> Option<u64>
        ensures number { option_map (λ n. (n, members_view self.new.left)) result ≡ number_field key.now most (members_view self.old.left) }
        ensures most { IfSome result (λ n. n ≤ most) }
    {
        let value = self.take(key)?;
        number_up_to(most, value)
    }

    /// Whether no member is left.
    pub(crate) fn is_end(mut self) -> bool
        ensures { result ≡ is_end (members_view self.entry.left) }
    {
        self.left.next().is_none()
    }

    /// Whether the only member that is left has this key and this text.
    pub(crate) fn ends_with(mut self, key: &str, word: &str) -> bool
        ensures { result ≡ ends_with key.now word.now (members_view self.entry.left) }
    {
        match self.left.next() {
            Some((name, value)) => {
                name.as_str() == key && is_word(word, value) && self.left.next().is_none()
            }
            None => false,
        }
    }
}
