//! Calls that compute with what is at a key. They wait for nobody.
ghost use Rattle.std.specs.Prelude.{Option, unwrap_or, ℕ, ◌≡◌, ◌≤◌};
ghost use Rattle.nb_map.specs.Maps.{IsMine};
ghost use Rattle.nb_map.specs.NamedCalls.{exchange_of};
ghost use Rattle.nb_map.specs.Progress.{Tries};
ghost use Rattle.nb_map.specs.Promises.{HasGot, HasWritten, replied_or_refused};
ghost use Rattle.nb_map.specs.Updating.{IsUpdate};

use crate::faults::PutFault;
use crate::map::{Map, Seat};
use nb_core::{Key, Num, Reply};

impl Map {
    /// What the map has at a key, or the number given where it has none. It is a `get`.
    pub fn get_or(&self, seat: &mut Seat, key: Key, number: Num) -> Num
        requires own { IsMine self.now seat.old }
        ensures { (found : Option ℕ) × (unwrap_or found number ≡ result)
            × HasGot self.now key seat.old seat.new found }
    {
        self.get(seat, key).unwrap_or(number)
    }

    /// Sets a key to what the function makes of what is there, `None` being absent, and answers
    /// what was there. It reads the key, and exchanges what it has read for what the function makes
    /// of it; where something else has come there it goes on from that, with so many exchanges in
    /// all, each of so many tries. So the function is called once for each exchange, and not for
    /// the read. `ConcurrentMap.compute`, except that it waits for nobody: it is refused as
    /// contended only where others won, since the seat's last step before it, at least as many
    /// exchanges on the key as it has tries.
    pub fn try_update<F: FnMut(Option<Num>) -> Option<Num>>(
        &self,
        seat: &mut Seat,
        key: Key,
        tries: u32,
        mut new_of: F,
    ) -> Result<Option<Num>, PutFault>
        requires own { IsMine self.now seat.old }
        requires some { 1 ≤ tries }
        requires callable { F.IsAlwaysCallable new_of }
        ensures updated { IsUpdate self.now F.step new_of key seat.old seat.new tries result }
        ensures own { IsMine self.now seat.new }
    {
        let mut found = self.get(seat, key);
        for _lost in 0..tries {
            let reply = self.exchange_from(seat, key, &found, tries, &mut new_of)?;
            if reply.matched {
                return Ok(reply.before);
            }
            found = reply.before;
        }
        Err(PutFault::Contended)
    }

    /// Exchanges this, if it is at the key, for what the function makes of it.
    fn exchange_from<F: FnMut(Option<Num>) -> Option<Num>>(
        &self,
        seat: &mut Seat,
        key: Key,
        found: &Option<Num>,
        tries: u32,
        new_of: &mut F,
    ) -> Result<Reply, PutFault>
        requires own { IsMine self.now seat.old }
        requires some { 1 ≤ tries }
        requires callable { F.IsAlwaysCallable new_of.old }
        ensures exchanged { (new : Option ℕ) × F.step new_of.old found.now new new_of.new
            × HasWritten self.now (exchange_of key found.now new) seat.old seat.new (Tries tries)
            (replied_or_refused result) }
        ensures callable { F.IsAlwaysCallable new_of.new }
    {
        let new = new_of(*found);
        self.compare_exchange(seat, key, *found, new, tries)
    }
}
