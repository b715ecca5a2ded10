//! The laws.
ghost use Rattle.laws_scripts.specs.Asked.{WhatLinesAskCanBeAsked};
ghost use Rattle.laws_scripts.specs.Networks.{ANewTreeKeepsANetworkValid};
ghost use Rattle.laws_scripts.specs.Small.{ASmallScriptIsOne};
ghost use Rattle.laws_scripts.specs.Scripts.{EachLinkHasItsEnds, EachScriptDeclaresAValidNetwork, EachScriptHasHosts, EachScriptIsAFitRun, EachScriptLeavesFitFacts, EachScriptLetsFewSend};
ghost use Rattle.laws_scripts.specs.Scripts.{FirstLinesAreAFitRun, FirstLinesLetFewSend};

/// A valid script lets few senders send: at each point of its events at most 16 of a session, each to a group, and 32 sessions
/// have one. So its plan meets what `laws_network` asks of the senders of a run.
pub fn each_script_lets_few_send()
    ensures { EachScriptLetsFewSend }
{}

/// A valid script has a period, its own or the usual one, and each of its ends has the address of a host: no group.
pub fn each_script_has_hosts()
    ensures { EachScriptHasHosts }
{}

/// A valid network stays valid with a tree in the place of another, where that is grown from the source and closes no chain of
/// its group.
pub fn a_new_tree_keeps_a_network_valid()
    ensures { ANewTreeKeepsANetworkValid }
{}

/// Each link that a valid script declares has two to eight ends.
pub fn each_link_has_its_ends()
    ensures { EachLinkHasItsEnds }
{}

/// The network that a valid script declares is a valid one.
pub fn each_script_declares_a_valid_network()
    ensures { EachScriptDeclaresAValidNetwork }
{}

/// A valid script is a fit plan: its network is valid, and what it leaves over at a node lives no longer than what was just
/// refreshed, and has its shape.
pub fn each_script_leaves_fit_facts()
    ensures { EachScriptLeavesFitFacts }
{}

/// A valid script is a fit run: its plan is fit, its calls have sound flows, what it injects goes to an end that is there and is a
/// proper message if it is one, and a tree that it replaces has a route and leaves the network valid.
pub fn each_script_is_a_fit_run()
    ensures { EachScriptIsAFitRun }
{}

/// Lines that may begin a script are a fit run, whatever comes behind them: each first lines of a file as far as these go.
pub fn first_lines_are_a_fit_run()
    ensures { FirstLinesAreAFitRun }
{}

/// And they let few senders send.
pub fn first_lines_let_few_send()
    ensures { FirstLinesLetFewSend }
{}

/// Behind lines that may begin a script the routing in force is valid, and what they ask of it can be asked: each want is at a node
/// that is there, at most 32 sessions are wanted, and a session has at most 16 senders. So their demand can be computed.
pub fn what_lines_ask_can_be_asked()
    ensures { WhatLinesAskCanBeAsked }
{}

/// There are scripts with a node, an end, a sender, a want and a round. So the laws of each script speak of something.
pub fn a_small_script_is_one()
    ensures { ASmallScriptIsOne }
{}
