//! Laws of the orders of allocators and of trees.
//!
//! Each law is a promise.
ghost use Rattle.vm_addresses.specs.Comparison.{layout_cmp, state_cmp, IsOrder, OrderAgreesWithEquality};

/// States that the orders of allocators and of trees are total and transitive.
///
/// The order of allocators returns `Equal` if and only if `==` returns `true`.
#[tactic(auto, using(vm_addresses::proofs::Comparing::StateOrders::state_order, vm_addresses::proofs::Comparing::StateOrders::layout_order, vm_addresses::proofs::Comparing::StateOrders::allocators_compared))]
fn orders_are_orders()
    ensures allocators { IsOrder state_cmp }
    ensures trees { IsOrder layout_cmp }
    ensures agrees { OrderAgreesWithEquality }
{}
