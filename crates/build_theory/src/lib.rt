//! Builds over any language: definitions of a tree's clean and incremental build, and their laws.
#![tactic(auto)]

ghost use Rattle.std.specs.Prelude.{◌≡◌, ℕ, List, [], ◌∷◌, map};
ghost use Rattle.build_theory.specs.Build.{Behind, Blocked, Checked, Current, Failed, Judged, Language, Sound, Tree, clean, incremental, order, sorted, store_after};
ghost use Rattle.build_theory.specs.Example.{Interface, Loop, NewSource, NothingKept, Problem, Reason, Source, adding, events, face_of_4, face_of_5, five, last, of_behind, of_loop, of_sound, old_face_of_5};
ghost use Rattle.build_theory.specs.Judging.{CheckedHasReason, CurrentIsKept, EnvironmentIsWhole, ResultsAreSteps, SoundWasChecked, StoreAfterBuild, StoresByLookup};
ghost use Rattle.build_theory.specs.Machine.{Event, EverySweepAgrees, NeedsComeFirst, NeedsStandBefore, Run, State, Step, SweepAgrees, SweepAgreesDownward, WaitingAtTheEnd, opening};
ghost use Rattle.build_theory.specs.Laws.{EmptyStoreIsClean, HistoriesAreClean, IsExact, IsOrdered, LawOfReading, OrderIsByNode, OrderIsWhole, OrderOfFilesIsNothing, StoresChangeNothing, StoresStayHonest};

/// A build over an empty store has the outcomes of the clean build.
pub fn empty_store_is_clean<G, N, S, B, K, E, R>()
    ensures { (l : Language G N S B K E R) → EmptyStoreIsClean l }
{}

/// The order in which the files stand changes nothing.
pub fn order_of_files_is_nothing<G, N, S, B, K, E, R>()
    ensures { (l : Language G N S B K E R) → OrderOfFilesIsNothing l }
{}

/// The order lists each node of the tree once.
pub fn order_is_whole<G, N, S, B, K, E, R>()
    ensures { (l : Language G N S B K E R) → OrderIsWhole l }
{}

/// Where each node needs smaller ones alone, the order is that of the nodes.
pub fn order_is_by_node<G, N, S, B, K, E, R>()
    ensures { (l : Language G N S B K E R) → OrderIsByNode l }
{}

/// Where a need of a need is a need, the order has each node before which there is no cycle behind all that it needs.
pub fn needs_stand_before<G, N, S, B, K, E, R>()
    ensures { (l : Language G N S B K E R) → NeedsStandBefore l }
{}

/// Under the law of reading, over an honest store, an incremental build has the outcomes of the clean build.
pub fn stores_change_nothing<G, N, S, B, K, E, R>()
    ensures { (l : Language G N S B K E R) → StoresChangeNothing l }
{}

/// Under the law of reading, a build over an honest store leaves an honest store.
pub fn stores_stay_honest<G, N, S, B, K, E, R>()
    ensures { (l : Language G N S B K E R) → StoresStayHonest l }
{}

/// Under the law of reading, after any builds from nothing, a build has the outcomes of its clean build.
pub fn histories_are_clean<G, N, S, B, K, E, R>()
    ensures { (l : Language G N S B K E R) → HistoriesAreClean l }
{}

/// Where each node stands behind its needs, any run of claims, finishes and refusals gives each finished node the
/// result of the incremental build.
pub fn sweep_agrees<G, N, S, B, K, E, R>()
    ensures { (l : Language G N S B K E R) → SweepAgrees l }
{}

/// The same of trees whose nodes need smaller ones alone.
pub fn sweep_agrees_downward<G, N, S, B, K, E, R>()
    ensures { (l : Language G N S B K E R) → SweepAgreesDownward l }
{}

/// In any tree any run of claims, finishes and refusals gives each finished node the result of the incremental build.
pub fn every_sweep_agrees<G, N, S, B, K, E, R>()
    ensures { (l : Language G N S B K E R) → EverySweepAgrees l }
{}

/// A run after which nothing more can happen leaves waiting just the nodes that the incremental build blocks, and those
/// behind a node that was given up.
pub fn over_leaves_the_blocked<G, N, S, B, K, E, R>()
    ensures { (l : Language G N S B K E R) → WaitingAtTheEnd l }
{}

/// A sound node of a clean build was checked, without graph errors and with all its needs sound.
pub fn sound_was_checked<G, N, S, B, K, E, R>()
    ensures { (l : Language G N S B K E R) → SoundWasChecked l }
{}

/// The environment in which a node is checked is that of the whole clean build.
pub fn environment_is_whole<G, N, S, B, K, E, R>()
    ensures { (l : Language G N S B K E R) → EnvironmentIsWhole l }
{}

/// A build, and the store behind any builds, depend on a store by its look-ups alone.
pub fn stores_by_lookup<G, N, S, B, K, E, R>()
    ensures { (l : Language G N S B K E R) → StoresByLookup l }
{}

/// Each result of an incremental build is its step from the results before it.
pub fn results_are_steps<G, N, S, B, K, E, R>()
    ensures { (l : Language G N S B K E R) → ResultsAreSteps l }
{}

/// After a build a store has what is kept of each sound interface, and all else is as before.
pub fn store_after_build<G, N, S, B, K, E, R>()
    ensures { (l : Language G N S B K E R) → StoreAfterBuild l }
{}

/// A current node has the interface that was kept.
pub fn current_is_kept<G, N, S, B, K, E, R>()
    ensures { (l : Language G N S B K E R) → CurrentIsKept l }
{}

/// A checked node has the result of its check, for a reason.
pub fn checked_has_reason<G, N, S, B, K, E, R>()
    ensures { (l : Language G N S B K E R) → CheckedHasReason l }
{}

/// A worked example of five nodes: two import each other, one needs those, and of two sound ones one needs the other.
/// It shows their order, the clean build, builds over no store, over one with a stale interface and over the store that
/// a build left, that store, and a sweep after whose last event nothing more can happen.
pub fn five_nodes()
    ensures order { map (λ q. q.0) (order adding (sorted adding five)) ≡ 5 ∷ 4 ∷ 1 ∷ 2 ∷ 3 ∷ [] }
    ensures clean { clean adding five ≡ (5, Sound face_of_5) ∷ (4, Sound face_of_4) ∷ (1, Blocked 2) ∷ (2, Failed Loop) ∷ (3, Failed Loop) ∷ [] }
    ensures afresh { incremental adding [] five ≡ (5, of_sound (Checked NothingKept) face_of_5) ∷ (4, of_sound (Checked NothingKept) face_of_4) ∷ (1, of_behind 2) ∷ (2, of_loop) ∷ (3, of_loop) ∷ [] }
    ensures stale { incremental adding ((4, face_of_4) ∷ (5, old_face_of_5) ∷ []) five ≡ (5, of_sound (Checked NewSource) face_of_5) ∷ (4, of_sound Current face_of_4) ∷ (1, of_behind 2) ∷ (2, of_loop) ∷ (3, of_loop) ∷ [] }
    ensures kept { store_after adding ((5, old_face_of_5) ∷ (6, old_face_of_5) ∷ []) five ≡ (5, face_of_5) ∷ (4, face_of_4) ∷ (5, old_face_of_5) ∷ (6, old_face_of_5) ∷ [] }
    ensures again { incremental adding (store_after adding [] five) five ≡ (5, of_sound Current face_of_5) ∷ (4, of_sound Current face_of_4) ∷ (1, of_behind 2) ∷ (2, of_loop) ∷ (3, of_loop) ∷ [] }
    ensures sweep { Run adding (sorted adding five) [] (opening adding (sorted adding five)) events last }
    ensures over { (event : Event ℕ (Judged ℕ Interface Problem Reason)) (next : State ℕ (Judged ℕ Interface Problem Reason)) → Step adding (sorted adding five) [] last event next → ⊥ }
    ensures placed { NeedsComeFirst adding (sorted adding five) [] }
{}

/// The example's language meets what the laws ask of a language: its nodes are ordered and told apart, and what is
/// kept of one tree and current in another would be checked alike there.
pub fn adding_is_lawful()
    ensures ordered { IsOrdered adding }
    ensures exact { IsExact adding }
    ensures reading { (trees : List (Tree ℕ ℕ Source)) → LawOfReading adding trees }
{}
