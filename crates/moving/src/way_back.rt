// The way back of a method whose forward move leaves it open.
use visits::Backward;

pub trait WayBack {
    ghost use Rattle.visits.specs.declared.Backward.{Backward};

    ghost WAY: { Backward };

    const WAY: Backward;
}

// By one boat: BT and FC.
#[derive(Drop)]
pub struct OneBack;

// By conflict sets: CBJ and FC-CBJ.
#[derive(Drop)]
pub struct BySets;

impl WayBack for OneBack {
    ghost use Rattle.visits.specs.declared.Backward.TheVariants.{OneBack as ByOne};

    ghost WAY = { ByOne };

    const WAY: Backward = Backward::OneBack;
}

impl WayBack for BySets {
    ghost use Rattle.visits.specs.declared.Backward.TheVariants.{BySets as BySetsOf};

    ghost WAY = { BySetsOf };

    const WAY: Backward = Backward::BySets;
}
