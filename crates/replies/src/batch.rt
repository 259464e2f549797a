//! Batches: the first ones of some documents, as many as go into one.

ghost use Rattle.std.specs.Prelude.{◌≡◌, All, IfOk, [], map};
ghost use Rattle.database_model.specs.Lawful.{IsWithin};
ghost use Rattle.replies.specs.OpenBatch.{AreOffered, HasGiven};
ghost use Rattle.replies.specs.View.{projected};

use crate::giving::Gives;
use crate::open_batch::OpenBatch;
use bson::NoMemory;
use projection::Projection;

/// Puts the first documents, as a projection leaves them, into a batch that has none, and says how many: as many as go
/// into it.
pub fn put_batch<T: Gives>(
    batch: &mut OpenBatch,
    projection: &Projection,
    documents: &[T],
) -> Result<usize, NoMemory>
    requires empty { HasGiven batch.old [] }
    requires within { All IsWithin (projected projection.now (map T.document documents.now)) }
    ensures { IfOk result (λ n. AreOffered batch.old
        (projected projection.now (map T.document documents.now)) n batch.new) }
{
    'documents: for (i, document) in documents.iter().enumerate() {
        if !batch.offer(projection, document)? {
            return Ok(i);
        }
    }
    Ok(documents.len())
}
