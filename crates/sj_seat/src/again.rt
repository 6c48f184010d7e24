//! A party that is taken apart between two calls, and put together again.
ghost use Rattle.std.specs.Prelude.{◌≡◌};
ghost use Rattle.sj_node.specs.Node.{wants_of};
ghost use Rattle.sj_node.specs.Reading as nodes;
ghost use Rattle.sj_seat.specs.Holdings.{IsHeldBy, table_in};
ghost use Rattle.sj_seat.specs.Views.{worker_of};
ghost use Rattle.sj_semantics.specs.declared.Want.TheVariants as wants;
ghost use Rattle.sj_work.specs.Views as works;

use crate::Guest;
use crate::holdings::Holdings;
use sj_work::Worker;

impl<'a, O, I, G> Guest<'a, O, I, G> {
    /// Its worker, and all else.
    pub fn into_parts(self) -> (Worker<O, I>, Holdings<'a, G>)
        ensures worker { result.0 ≡ worker_of self.entry }
        ensures idle { wants_of (works.node_of result.0) ≡ wants.Ended }
        ensures same { nodes.table_of (works.node_of result.0) ≡ table_in result.1 }
        ensures holds { IsHeldBy result.1 self.entry }
    {
        let Guest {
            worker,
            table,
            ends,
            may,
            texts,
            calls,
            looks,
            gate,
        } = self;
        let holdings = Holdings {
            table,
            ends,
            may,
            texts,
            calls,
            looks,
            gate,
        };
        (worker, holdings)
    }
}

impl<'a, G> Holdings<'a, G> {
    /// The guest that holds this, with that worker.
    pub fn with_worker<O, I>(self, worker: Worker<O, I>) -> Guest<'a, O, I, G>
        requires same { nodes.table_of (works.node_of worker) ≡ table_in self }
        requires idle { wants_of (works.node_of worker) ≡ wants.Ended }
        ensures worker { worker_of result ≡ worker }
        ensures holds { IsHeldBy self.entry result }
    {
        let Holdings {
            table,
            ends,
            may,
            texts,
            calls,
            looks,
            gate,
        } = self;
        Guest {
            worker,
            table,
            ends,
            may,
            texts,
            calls,
            looks,
            gate,
        }
    }
}
