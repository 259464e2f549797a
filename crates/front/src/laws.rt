//! Laws of the definitions, as contracts.

ghost use Rattle.front.specs.Running.{ServesEachSocket};

use page::Disk;
use std::rt::Clock;

/// Whatever comes on other sockets, in whatever chunks its bytes come and whenever turns are made: the messages of a socket are
/// those at the front of its bytes, the server is asked for each what its replies call for, and what is handed out are the answers.
pub fn serves_each_socket<C: Clock, D: Disk>()
    ensures { ServesEachSocket C D.history }
{}
