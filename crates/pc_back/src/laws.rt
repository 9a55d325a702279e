//! What needs promise beyond the laws of domains, as the contract of a function that does nothing.

ghost use Rattle.pc_back.specs.Laws.{NeedIsKept};

/// Without loops and with tame numbers the fold of the views of needs over the edges in order is what the points need.
pub fn need_is_kept()
    ensures { NeedIsKept }
{}
