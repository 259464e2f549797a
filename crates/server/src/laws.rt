//! Laws of runs: what a crash leaves of one, and what the definitions say of chunks, streams and batches.

ghost use Rattle.server.specs.Batches.{BatchesCutTheList};
ghost use Rattle.server.specs.Chunks.{ChunksJoin};
ghost use Rattle.server.specs.InOrder.{CallsAscend};
ghost use Rattle.server.specs.Prefix.{FindsAPrefix};
ghost use Rattle.server.specs.Streams.{TakesTheStream};

use page::Disk;

/// However a run is cut, what the crash left holds the collections after some first turns of the run, and opening it finds
/// these: every turn that had answered at that moment is one of them, and at most one turn more.
pub fn finds_a_prefix<D: Disk, E: Disk>()
    ensures { FindsAPrefix D.history E.history }
{}

/// Two chunks for a connection, one after the other, are one chunk.
pub fn chunks_join()
    ensures { ChunksJoin }
{}

/// The messages that the turns of a history take from a connection are those at the front of the stream of all its bytes, in order,
/// until it ends, whatever other connections do.
pub fn takes_the_stream()
    ensures { TakesTheStream }
{}

/// The batches of a cursor that the turns of a history hand out, one after the other, and what it has left are the documents that it
/// had, whatever comes between.
pub fn batches_cut_the_list()
    ensures { BatchesCutTheList }
{}

/// A turn runs its messages in ascending connection number, since the connections of a server ascend.
pub fn calls_ascend()
    ensures { CallsAscend }
{}
