//! Flows in networks: definitions and laws, and no code.
//!
//! The definitions stand in `specs/`, in Ford and Fulkerson's terms: networks, flows, cuts, residual arcs, layers, and the rounds
//! by which Dinic's method makes a flow maximum. Each function below has a law for its contract; the proofs stand in `proofs/`,
//! each under the argument in words.
#![tactic(auto)]

ghost use Rattle.network.specs.Laws.{WeakDuality, MaximumExactly, LayersAreDistances, LayersExist, MaxFlowMinCut, RoundGains, RoundTakesSinkFarther, RoundsAreFew, SameNetworks};

/// No flow's value passes any cut's capacity.
pub fn weak_duality() -> u8
    ensures { WeakDuality }
{
    0
}

/// A flow is maximum exactly if no walk along residual arcs comes to the sink.
pub fn maximum_exactly() -> u8
    ensures { MaximumExactly }
{
    0
}

/// Layers by arcs are layers by walks.
pub fn layers_are_distances() -> u8
    ensures { LayersAreDistances }
{
    0
}

/// Each flow has layers, and no more of them than nodes.
pub fn layers_exist() -> u8
    ensures { LayersExist }
{
    0
}

/// Where the sink is not reached, the nodes that are reached are a minimum cut, and its capacity is the flow's value.
pub fn max_flow_min_cut() -> u8
    ensures { MaxFlowMinCut }
{
    0
}

/// A round makes the value greater.
pub fn round_gains() -> u8
    ensures { RoundGains }
{
    0
}

/// A round takes the sink strictly farther from the source.
pub fn round_takes_sink_farther() -> u8
    ensures { RoundTakesSinkFarther }
{
    0
}

/// A chain has fewer rounds than there are nodes.
pub fn rounds_are_few() -> u8
    ensures { RoundsAreFew }
{
    0
}

/// Networks that are the same on their arcs have the same flows, maximum flows, rounds and chains of rounds.
pub fn same_networks() -> u8
    ensures { SameNetworks }
{
    0
}
