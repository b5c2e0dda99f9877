//! Histories of nodes that ran side by side, put together: in each order that keeps each node's own, and has each delivery
//! behind the step that sent its message, they are the continuation of a run of the cluster.
#![tactic(auto)]

ghost use Rattle.lawful_orders.specs.Laws.{AheadIsATick, AheadIsNotPassed, HistoriesMerge, LawfulIsSentBefore, LawfulOrdersAreRuns, LawfulStaysSo, MergedIsARun, MergedIsLawful, MergedIsOne, OrdersAreLawful, OrdersGoOn, RestartsAreRuns};

/// A run goes on by each lawful order of its nodes' histories, and each node comes to where its history leads.
pub fn lawful_orders_are_runs()
    ensures { LawfulOrdersAreRuns }
{}

/// Where a cluster goes through an order of entries, a run goes on by it, the order is lawful, and each node goes through
/// its own entries.
pub fn orders_go_on()
    ensures run { OrdersGoOn }
    ensures lawful { OrdersAreLawful }
{}

/// All nodes of a run may be stopped and loaded, from whatever their stores are found to have.
pub fn restarts_are_runs()
    ensures { RestartsAreRuns }
{}

/// An order is lawful just where each message that comes was sent before, and so it stays lawful where more was.
pub fn lawful_is_sent_before()
    ensures just { LawfulIsSentBefore }
    ensures more { LawfulStaysSo }
{}

/// The entries of all nodes can be put in one order by node time, and then by node. It is lawful, and so a run.
pub fn merged_is_a_run()
    ensures there { HistoriesMerge }
    ensures one { MergedIsOne }
    ensures lawful { MergedIsLawful }
    ensures run { MergedIsARun }
{}

/// A message that is refused because it is ahead counts as a reading of the clock.
pub fn ahead_is_a_tick()
    ensures known { AheadIsNotPassed }
    ensures steps { AheadIsATick }
{}
