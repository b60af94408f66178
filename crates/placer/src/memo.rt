// The memo over any placer: it holds one parent with its address.
ghost use Rattle.std.specs.Prelude.{◌≡◌, None};
ghost use Rattle.nodes.specs.Table.{table};
ghost use Rattle.nodes.specs.Views.{address_view, entry_of};
ghost use Rattle.placer.specs.Memory.{Right, Recalled};
ghost use Rattle.std.proofs.Math.Logic.{∥∥₁_elim, ∥∥₁_prop};

use crate::placer::Placer;
use edges::rows::Placed;
use nodes::address::Address;
use nodes::fault::PlaceFault;
use nodes::placing::child_placement;
use ring_jobs::job::RingJob;
use rings::ring::Ring;

// A placement with its address.
#[derive(Clone, Copy)]
pub struct Held<R> {
    pub address: Address,
    pub placed: Placed<R>,
}

#[derive(Drop)]
pub struct Memo<P: Placer> {
    lower: P,
    held: Option<Held<P::R>>,
}

impl<P: Placer> Memo<P> {
    // A memo that holds nothing yet.
    pub fn new(lower: P) -> Self
        ensures { (result.lower ≡ lower) × (result.held ≡ None) }
    {
        Memo { lower, held: None }
    }

    pub fn into_lower(self) -> P
        ensures { result ≡ self.lower }
    {
        let Memo { lower, held: _ } = self;
        lower
    }

    // The placement of a parent, held from now on.
    fn parent(&mut self, over: &Address) -> Result<Placed<P::R>, PlaceFault>
        ensures answer { ⟦<Memo<P> as Placer>⟧.sound self.old → entry_of P.R.Ring.exact P.R.Ring.value result ≡ table P.R.Ring.exact (P.Placer.plan self.old.lower) (address_view over.now) }
        ensures kept { P.Placer.plan self.new.lower ≡ P.Placer.plan self.old.lower }
        ensures sound { ⟦<Memo<P> as Placer>⟧.sound self.old → ⟦<Memo<P> as Placer>⟧.sound self.new }
    {
        if let Some(placed) = recall(&self.held, over) {
            return Ok(placed);
        }
        let placed = self.lower.place(over)?;
        self.held = Some(Held {
            address: *over,
            placed,
        });
        Ok(placed)
    }
}

impl<P: Placer> Placer for Memo<P> {
    type R = P::R;

    ghost plan = { λ m. P.Placer.plan m.lower };

    ghost sound = { λ m. P.Placer.sound m.lower × Right P.R.Ring.exact P.R.Ring.value (P.Placer.plan m.lower) m.held };

    ghost branching = { λ m. P.Placer.branching m.lower };

    ghost soundable = { λ m. ∥∥₁_elim (P.Placer.soundable m.lower) ∥∥₁_prop (λ q. ∣ (record { lower = q.0; held = None }, ((q.1.0, tt), q.1.1)) ∣₁) };

    fn job(&self) -> &RingJob<P::R> {
        self.lower.job()
    }

    // A parent off the plane by its own corners may have a child on it, so the placer below is then asked for the child itself.
    fn place(&mut self, at: &Address) -> Result<Placed<P::R>, PlaceFault> {
        if u32::from(at.level) > self.lower.job().depth {
            return self.lower.place(at);
        }
        let Some((over, child)) = at.parent() else {
            return self.lower.place(at);
        };
        match self.parent(&over) {
            Ok(above) => child_placement(self.lower.job(), &above, usize::from(child)),
            Err(_) => self.lower.place(at),
        }
    }
}

// What is held for an address.
fn recall<R: Ring>(held: &Option<Held<R>>, at: &Address) -> Option<Placed<R>>
    ensures { Recalled held.now at.now result }
{
    match held {
        Some(h) if h.address == *at => Some(h.placed),
        _ => None,
    }
}
