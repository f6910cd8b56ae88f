// The register's law: what a history of requests says, which answer it calls for, and what follows. Nothing runs here:
// each function carries theorems, and the register is proved against the same definitions.
#![tactic(auto)]

ghost use Rattle.law.specs.Promises.{RightIsSound, OneOutcome, SomeAnswer, SixteenExactly, BoxSixteenExactly, BoxInAnyOrder, OnlyAcceptedChange, MoreNeverMends, MoreSaidNeverMends, ChainFits, AllKept, FullAt256, OneLinkMore, NoLink, Guarantee};
ghost use Rattle.law.specs.Examples.{WorkedExamples};

// Every right history is sound, and nothing mends what is unsound but fewer links, fewer holdings or more trust.
pub fn histories_are_sound()
    ensures sound { RightIsSound }
    ensures scenes { MoreNeverMends }
    ensures histories { MoreSaidNeverMends }
{}

// Each request has one outcome after a right history, and only what is accepted changes anything.
pub fn outcomes_are_fixed()
    ensures one { OneOutcome }
    ensures some { SomeAnswer }
    ensures fits { ChainFits }
    ensures changes { OnlyAcceptedChange }
    ensures kept { AllKept }
    ensures full { FullAt256 }
{}

// When the last check refuses.
pub fn sixteen_is_exact()
    ensures single { SixteenExactly }
    ensures boxed { BoxSixteenExactly }
{}

// A box comes to the same as its links in any order.
pub fn boxes_have_no_order()
    ensures { BoxInAnyOrder }
{}

// How chains grow with links.
pub fn chains_grow()
    ensures more { OneLinkMore }
    ensures none { NoLink }
{}

// The promises, whole.
pub fn guarantee_stands()
    ensures { Guarantee }
{}

// The worked examples over the sample bank.
pub fn examples_follow()
    ensures { WorkedExamples }
{}
