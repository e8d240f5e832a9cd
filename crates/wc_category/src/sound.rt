ghost use Rattle.wc_category.specs.Sound.{CategoriesAreJustified, CategoriesAreSound, MustAndMayAreSound, UpperCostsBound};

/// A law: on every walk each fetch is as any solution of must and may says.
pub fn must_and_may_are_sound()
    ensures { MustAndMayAreSound }
{}

/// A law: categories that solutions of must and may justify come true at each visit.
pub fn categories_are_sound()
    ensures { CategoriesAreSound }
{}

/// A law: the cycles of every walk are at most the sum of its upper costs.
pub fn upper_costs_bound()
    ensures { UpperCostsBound }
{}

/// A law: the most precise must and may justify the categories of a graph.
pub fn categories_are_justified()
    ensures { CategoriesAreJustified }
{}
