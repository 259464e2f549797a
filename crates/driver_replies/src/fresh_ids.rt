//! Object ids that no document has.

ghost use Rattle.std.specs.Prelude.{◌≡◌};
ghost use Rattle.driver_replies.specs.Writes.{fresh_id, next_ids};

use bson::ObjectId;

/// From where on object ids are fresh: the seconds since 1970, and a number that was given to no other message.
#[derive(Clone, Copy, Debug)]
pub struct FreshIds {
    pub seconds: u32,
    pub number: u64,
}

impl FreshIds {
    /// The first of them.
    pub(crate) fn first(self) -> ObjectId
        ensures { result ≡ fresh_id self }
    {
        let s = self.seconds.to_be_bytes();
        let n = self.number.to_be_bytes();
        ObjectId::new([
            s[0], s[1], s[2], s[3], n[0], n[1], n[2], n[3], n[4], n[5], n[6], n[7],
        ])
    }

    /// Those behind the first.
    pub(crate) fn next(self) -> FreshIds
        ensures { result ≡ next_ids self }
    {
        FreshIds {
            seconds: self.seconds,
            number: self.number.saturating_add(1),
        }
    }
}
