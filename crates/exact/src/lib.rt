// The mathematics of the rings: theorems, asked for by the contracts of functions that do nothing.
#![tactic(auto)]

ghost use Rattle.exact.specs.Cyclotomic.{CyclotomicLaws};
ghost use Rattle.exact.specs.Groups.{AbelianLaws};
ghost use Rattle.exact.specs.Residues.{totals};
ghost use Rattle.exact.specs.Models.{gaussian, tenfold};
ghost use Rattle.exact.specs.Sizes.{SizeLaws};
ghost use Rattle.exact.specs.Theorems.{EveryQuarticReductionGivesARing};

pub fn quartic_reductions_give_rings()
    ensures { EveryQuarticReductionGivesARing }
{}

pub fn gaussian_is_an_exact_ring()
    ensures { CyclotomicLaws gaussian }
{}

pub fn tenfold_is_an_exact_ring()
    ensures { CyclotomicLaws tenfold }
{}

pub fn totals_form_a_commutative_group()
    ensures { AbelianLaws totals }
{}

pub fn gaussian_coefficients_grow_little()
    ensures { SizeLaws gaussian }
{}

pub fn tenfold_coefficients_grow_little()
    ensures { SizeLaws tenfold }
{}
