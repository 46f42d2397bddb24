// Laws of the definition of a heap, for the crates above.
ghost use Rattle.cp_heap.specs.Laws.{InstancesHaveTheVariables, InstancesHaveNoBoundVariable, HeapsExtendThemselves, ExtensionsFollow, TermsStay};

/// An instance has variables of the heap alone, and none of them is bound.
pub fn instances_have_the_variables_of_the_heap()
    ensures variables { InstancesHaveTheVariables }
    ensures unbound { InstancesHaveNoBoundVariable }
{}

/// A heap has grown to itself, and what grows twice has grown.
pub fn extension_is_an_order()
    ensures same { HeapsExtendThemselves }
    ensures further { ExtensionsFollow }
{}

/// A term that was made keeps its place as the heap grows.
pub fn terms_stay()
    ensures { TermsStay }
{}
