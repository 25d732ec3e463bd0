//! What calls take of what is free, on worked rows, right ones and wrong ones.
ghost use Rattle.nl_namespace.specs.Taking.{TakesLeast};
ghost use Rattle.nl_namespace.specs.TakingExamples.{generations, least_taken, second_address_taken, second_number_taken, two_free};

/// A call that takes number 1 and address 70, where 2 and 71 are free too, takes the least. The node was of generation 7, and is of 8.
pub fn takes_the_least()
    ensures { TakesLeast two_free least_taken (generations 1 7) (generations 1 8) }
{}

/// A call that takes number 2, where 1 is free, does not take the least.
pub fn takes_another_number()
    ensures { TakesLeast two_free second_number_taken (generations 2 7) (generations 2 8) → ⊥ }
{}

/// A call that takes address 71, where 70 is free, does not take the least.
pub fn takes_another_address()
    ensures { TakesLeast two_free second_address_taken (generations 1 7) (generations 1 7) → ⊥ }
{}

/// A node that is taken is not of the generation that the number had.
pub fn keeps_the_generation()
    ensures { TakesLeast two_free least_taken (generations 1 7) (generations 1 7) → ⊥ }
{}

/// A call that takes nothing leaves the generation of each node.
pub fn raises_another_generation()
    ensures { TakesLeast two_free two_free (generations 0 7) (generations 0 8) → ⊥ }
{}
