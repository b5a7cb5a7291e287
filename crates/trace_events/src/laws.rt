// What the definitions mean, as laws over the histories of all lists of traces.
ghost use Rattle.std.specs.Prelude.{◌≡◌, ◌↔◌, ◌⊎◌, ◌+◌, ◌-◌, ◌<◌, ◌≤◌, ℕ, List, [], Some, IsTrue, is_some};
ghost use Rattle.std.specs.Cmp.{IsTotalOrder};
ghost use Rattle.std.specs.declared.cmp.Ordering.TheVariants.{Equal};
ghost use Rattle.std.specs.List.{AllPairs, Contains};
ghost use Rattle.flow_base.specs.declared.event.Event.{Event};
ghost use Rattle.flow_base.specs.declared.event.ReadHow.{ReadHow};
ghost use Rattle.flow_base.specs.declared.loc.Loc.{Loc};
ghost use Rattle.trace_events.specs.declared.version.Version.{Version};
ghost use Rattle.trace_events.specs.History.{history_of, deps, run_of, wrote, IsOlder};
ghost use Rattle.trace_events.specs.Decided.{ancestors_of, near_of, is_stale};
ghost use Rattle.trace_events.specs.Staleness.{Ancestor, Near, Stale};
ghost use Rattle.trace_events.specs.Order.{version_cmp};
ghost use Rattle.trace_events.specs.Why.{Reason, IsWhy, why_of};
ghost use Rattle.trace_events.specs.Trace.{Written, IsAt, IsReadBeforeWrite, IsStartRead, summary_of};

/// What is kept of the events of a run.
pub fn trace_law()
    // a start read of a location is a read of it that no write of it comes before
    ensures start_reads { (events : List Event) (l : Loc) (how : ReadHow)
        → (IsStartRead events l how ↔ ((place : ℕ) × IsReadBeforeWrite events l how place)) }

    // the writes that are kept are those at all places, with their locations, in the order of the places
    ensures writes { (events : List Event) (place : ℕ) (l : Loc)
        → (IsAt events place (Event.Write l)
        ↔ ((w : Written) × Contains (summary_of events).writes w × (w.place ≡ place) × (w.location ≡ l))) }
    ensures in_order { (events : List Event) → AllPairs (λ (w x : Written). w.place < x.place) (summary_of events).writes }
{}

/// What a version rests on came about before it.
pub fn ancestors_law()
    ensures not_itself { (traces : List (List Event)) (v : Version) → Ancestor (history_of traces) v v → ⊥ }
    ensures older { (traces : List (List Event)) (v u : Version) → Ancestor (history_of traces) v u → IsOlder u v }
    ensures none { (traces : List (List Event)) (v u : Version) → deps (history_of traces) v ≡ [] → Ancestor (history_of traces) v u → ⊥ }
{}

/// When a version is stale.
pub fn staleness_law()
    // nothing can make a version stale that rests on nothing
    ensures none { (traces : List (List Event)) (n : ℕ) (v : Version) → deps (history_of traces) v ≡ [] → Stale (history_of traces) n v → ⊥ }

    // a stale version stays stale
    ensures stays { (traces : List (List Event)) (n : ℕ) (v : Version) → Stale (history_of traces) n v → Stale (history_of traces) (n + 1) v }

    // what a run itself overwrites does not make the values that it computes stale: they are stale where the run began from
    // stale ones
    ensures own_run { (traces : List (List Event)) (n : ℕ) (v : Version) → run_of v ≡ n
        → (Stale (history_of traces) n v ↔ ((u : Version) × Near (history_of traces) v u × Stale (history_of traces) (n - 1) u)) }

    // a later run makes a version stale where it writes the location of an ancestor
    ensures next_run { (traces : List (List Event)) (n : ℕ) (v : Version) → run_of v ≤ n
        → (Stale (history_of traces) (n + 1) v
        ↔ (Stale (history_of traces) n v ⊎ ((u : Version) × Ancestor (history_of traces) v u × IsTrue (wrote (history_of traces) (n + 1) u)))) }
{}

/// Ancestors, near versions and stale versions can be computed.
pub fn decided_law()
    ensures ancestors { (traces : List (List Event)) (v u : Version) → (Contains (ancestors_of (history_of traces) v) u ↔ Ancestor (history_of traces) v u) }
    ensures near { (traces : List (List Event)) (v u : Version) → (Contains (near_of (history_of traces) v) u ↔ Near (history_of traces) v u) }
    ensures stale { (traces : List (List Event)) (n : ℕ) (v : Version) → (IsTrue (is_stale (history_of traces) n v) ↔ Stale (history_of traces) n v) }
{}

/// Why a version is stale.
pub fn why_law()
    // there is a reason exactly where the version is stale
    ensures some { (names : List (List ℕ)) (traces : List (List Event)) (n : ℕ) (v : Version)
        → is_some (why_of names (history_of traces) n v) ≡ is_stale (history_of traces) n v }

    // it names the least ancestor that was overwritten and the first run that did so, or else it is that of the least near
    // version that was stale
    ensures least { (names : List (List ℕ)) (traces : List (List Event)) (n : ℕ) (v : Version) (reason : Reason)
        → why_of names (history_of traces) n v ≡ Some reason → IsWhy names (history_of traces) n v reason }
{}

/// The order by which the least version is taken.
pub fn order_law()
    ensures total { (names : List (List ℕ)) → IsTotalOrder (version_cmp names) }

    // it tells all versions apart
    ensures exact { (names : List (List ℕ)) (u v : Version) → version_cmp names u v ≡ Equal → u ≡ v }
{}
