//! What callers conclude of the suspects that they hand to settling. Each function has
//! an empty body; its clauses are the law.

ghost use Rattle.std.specs.Prelude.{◌≡◌, ◌+◌, ◌≤◌, List, Option, length};
ghost use Rattle.lf_base.specs.declared.ids.ObjId.{ObjId};
ghost use Rattle.lf_base.specs.declared.values.Value.{Value};
ghost use Rattle.lf_base.specs.Edges.{Source, slot_targets};
ghost use Rattle.lf_base.specs.Kept.{kept, kept_rows};
ghost use Rattle.lf_base.specs.Losses.{Loses, justified};
ghost use Rattle.lf_base.specs.Owners.{bridges};
ghost use Rattle.lf_base.specs.PlainState.{State};
ghost use Rattle.lf_base.specs.Suspects.{AllHang, Suspect};
ghost use Rattle.lf_domain.specs.Counts.{CountsOf};
ghost use Rattle.lf_graph.specs.StoredRows.{CountedRow};
ghost use Rattle.lf_regions.specs.declared.region.Region.{Region};
ghost use Rattle.lf_settle.specs.Drops.{SameCapacity};
ghost use Rattle.lf_settle.specs.LostEdges.{HasRoom, LosesPlace, NoticesLoss};
ghost use Rattle.lf_settle.specs.SettledStates.{CanSettle, IsCounted};
ghost use Rattle.lf_settle.specs.WorkLists.{WorkList};
ghost use Rattle.lf_base.specs.Settling.{Watched};

/// What is noticed of the edge of one place is what a loss of edges asks for, so it
/// follows other losses, and what nothing justifies is watched or noticed after it.
pub fn noticed_edges_are_lost()
    ensures { (s t : State) (from : Source) (v : Option Value) (old new : List Suspect) → LosesPlace s t from (slot_targets v)
        → NoticesLoss s t (slot_targets v) old new → Loses s t old new }
{}

/// Settling may be asked for where each row that must go hangs on a suspect, and there is
/// room for as many suspects as the state has rows and regions.
pub fn hanging_rows_may_be_settled()
    ensures hanging { (rows : List CountedRow) (regions : List Region) (work : WorkList) (s : State) → IsCounted rows regions s
        → AllHang s work.suspects → length s.rows + length (bridges s) ≤ work.spare → CanSettle rows regions work s }
    ensures stored_state { (rows : List CountedRow) (regions : List Region) (s : State) → CountsOf rows regions s
        → length s.rows ≡ length rows }
    ensures none { (rows : List CountedRow) (regions : List Region) (work : WorkList) (s : State) → CanSettle rows regions work s
        → CountsOf rows regions s }
{}

/// Where there is room for as many suspects as something is justified, there is room for
/// what the loss of an edge leaves without justification, and enough again after it.
pub fn room_lasts()
    ensures room { (s t : State) (from : Source) (v : Option Value) (work : WorkList) → LosesPlace s t from (slot_targets v)
        → justified s ≤ work.spare → HasRoom s t (slot_targets v) work }
    ensures after { (s t : State) (old new : WorkList) → Loses s t old.suspects new.suspects → SameCapacity old new
        → justified s ≤ old.spare → justified t ≤ new.spare }
{}
