// What answers the placement of an address.
ghost use Rattle.std.specs.Prelude.{◌≡◌};
ghost use Rattle.exact.specs.JobNumbers.{JobNumbers};
ghost use Rattle.ring_jobs.specs.RingJobs.{job_numbers};
ghost use Rattle.ring_jobs.specs.Shapes.{Branching};
ghost use Rattle.nodes.specs.Table.{table};
ghost use Rattle.nodes.specs.Views.{address_view, entry_of};

use edges::rows::Placed;
use nodes::address::Address;
use nodes::fault::PlaceFault;
use ring_jobs::job::RingJob;
use rings::ring::Ring;

// A placer has a job, and if it is sound answers from the job's table: for each address the node's placement, 3 where there is
// no such node, 8 where the node is off the plane. A question may change what the placer remembers, and never the table; a
// sound placer stays sound.
pub trait Placer {
    type R: Ring;

    // the numbers of the job, which fix the table
    ghost plan: { Self → JobNumbers };

    // what the placer remembers is the table's
    ghost sound: { Self → Type 0 };

    fn job(&self) -> &RingJob<Self::R>
        ensures { job_numbers Self.R.Ring.exact Self.R.Ring.value result.now ≡ plan self.now };

    fn place(&mut self, at: &Address) -> Result<Placed<Self::R>, PlaceFault>
        ensures answer { sound self.old → entry_of Self.R.Ring.exact Self.R.Ring.value result ≡ table Self.R.Ring.exact (plan self.old) (address_view at.now) }
        ensures kept { plan self.new ≡ plan self.old }
        ensures sound { sound self.old → sound self.new };

    // the job can be gone down from each node above its depth
    ghost branching: { (p : Self) → Branching (plan p) };

    // each placer's job has a sound placer, so that to be sound asks nothing that cannot be met
    ghost soundable: { (p : Self) → ∥ ((q : Self) × (sound q × (plan q ≡ plan p))) ∥₁ };
}
