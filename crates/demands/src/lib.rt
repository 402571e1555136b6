// The demands on the unit as theorems, over what its operations promise. There is nothing to run here: each demand is what a function without code promises,
// so that one without a proof fails the gate.
#![tactic(auto)]

ghost use Rattle.demands.specs.Coincide.{OutcomesCoincide};
ghost use Rattle.demands.specs.Edges.{EdgesHold};
ghost use Rattle.demands.specs.Exported.{ExportedCoincide};
ghost use Rattle.demands.specs.InstalledKey.{InstalledKey};
ghost use Rattle.demands.specs.Isolation.{Isolation, NeverFull};
ghost use Rattle.demands.specs.ReadsBack.{AcceptanceIsExact, AReplyReadsBack};
ghost use Rattle.demands.specs.Served.{CanBeServed};
ghost use Rattle.demands.specs.ShutsOut.{ShutsOut};

pub fn demands()
    ensures isolation { Isolation }
    ensures never_full { NeverFull }
    ensures can_be_served { CanBeServed }
    ensures installed_key { InstalledKey }
    ensures edges_hold { EdgesHold }
    ensures outcomes_coincide { OutcomesCoincide }
    ensures exported_coincide { ExportedCoincide }
    ensures acceptance_is_exact { AcceptanceIsExact }
    ensures a_reply_reads_back { AReplyReadsBack }
    ensures shuts_out { ShutsOut }
{}
