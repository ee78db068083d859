//! What a stage reads of an environment: how the parts of the law of reading compose, and how they give the one law
//! that the theory of builds asks of a language.
#![tactic(auto)]

ghost use Rattle.build_theory.specs.Build.{Checked, Current, How, Judged, Language, Outcome, Sound, Tree, clean, incremental, store_after};
ghost use Rattle.build_theory.specs.Example.{Source};
ghost use Rattle.build_theory.specs.Laws.{IsExact, LawOfReading};
ghost use Rattle.reading_law.specs.Reading.{Gives, ReadsOnly};
ghost use Rattle.reading_law.specs.Example.{Face, Fault, OtherSource, OtherUse, Unknown, alike, ask, checking, face_of_1, face_of_2, face, face_of_3, forgetting, found_in_four, four, linking, new_face_of_1, other, reads, rewired, source, stage, three};
ghost use Rattle.std.specs.declared.option.Option.{Option};
ghost use Rattle.reading_law.specs.Compose.{BehindReads, BesideReads, EachReads, ReachedReads, SeenReads, ShownReads, TakenReads, WalkReads};
ghost use Rattle.reading_law.specs.Recheck.{AnswersTellUses, BuildsFollow, IsCompared, IsComposed, IsKept, ReachedTellUses, ReadingFollows, Recheck};
ghost use Rattle.std.specs.Prelude.{◌≡◌, ℕ, [], ◌∷◌, Bool, List, Some, Result, Ok, Err};

/// A stage behind a stage, beside one, or over each element of a list reads what its parts read.
pub fn stages_compose<V, Q, A, X, Y, Z, E>()
    ensures behind { (ask : V → Q → A) (f : X → V → Result Y E) (g : X × Y → V → Result Z E) (r : X → Y → List Q) (s : X × Y → Z → List Q) → BehindReads ask f g r s }
    ensures beside { (ask : V → Q → A) (join : E → E → E) (f : X → V → Result Y E) (g : X → V → Result Z E) (r : X → Y → List Q) (s : X → Z → List Q) → BesideReads ask join f g r s }
    ensures each { (ask : V → Q → A) (join : E → E → E) (f : X → V → Result Y E) (r : X → Y → List Q) → EachReads ask join f r }
    ensures shown { (ask : V → Q → A) (f : X → V → Result Y E) (r : X → Y → List Q) (show : X → Y → Z) (s : X → Z → List Q) → ShownReads ask f r show s }
    ensures taken { (ask : V → Q → A) (f : X → V → Result Y E) (r : X → Y → List Q) (take : Z → X) → TakenReads ask f r take }
{}

/// A stage over an environment that is made of another and the input, with queries of its own, reads those queries of
/// the other whose answers tell its own.
pub fn seen_environments<V, Q, A, W, P, B, X, Y, E>()
    ensures { (ask : V → Q → A) (tell : W → P → B) (see : X → V → W) (f : X → W → Result Y E) (r : X → Y → List P) (among : X → P → List Q) → SeenReads ask tell see f r among }
{}

/// A walk each of whose steps is found in the answer of an earlier one reads what it went through.
pub fn walks_read<V, Q, A, X>()
    ensures walk { (ask : V → Q → A) (next : Q → A → List Q) (same : Q → Q → Bool) (n : ℕ) (starts : X → List Q) → WalkReads ask next same n starts }
    ensures reached { (ask : V → Q → A) (next : Q → A → List Q) (starts : X → List Q) → ReachedReads ask next starts }
{}

/// A language whose check reads only some queries, whose interfaces keep usages with fingerprints, and whose decision
/// compares these, meets the law of reading; so its builds have the outcomes of clean builds.
pub fn reading_follows<G, N, S, B, K, E, R, X, Y, V, Q, A, U, P>()
    ensures law { (l : Language G N S B K E R) (c : Recheck G N S B K E X Y V Q A U P) (trees : List (Tree G N S)) → ReadingFollows l c trees }
    ensures builds { (l : Language G N S B K E R) (c : Recheck G N S B K E X Y V Q A U P) (trees : List (Tree G N S)) → BuildsFollow l c trees }
{}

/// When usages with the same fingerprints tell that what was read has the same answers.
pub fn usages_tell<G, N, S, B, K, E, R, X, Y, V, Q, A, P>()
    ensures answers { (l : Language G N S B K E R) (c : Recheck G N S B K E X Y V Q A Q P) (trees : List (Tree G N S)) → AnswersTellUses l c trees }
    ensures reached { (l : Language G N S B K E R) (c : Recheck G N S B K E X Y V Q A Q P) (trees : List (Tree G N S)) (next : Q → A → List Q) → ReachedTellUses l c trees next }
{}

/// A worked example: each import is looked for, and then what the imports lead to is gone through. What it found and
/// read in one environment; the same in another that differs where nobody asks; another result where an answer that
/// was read is another; and a fault.
pub fn two_stages()
    ensures found { stage (source (2 ∷ 3 ∷ []) 10) four ≡ Ok found_in_four }
    ensures read { reads (source (2 ∷ 3 ∷ []) 10) found_in_four ≡ 2 ∷ 3 ∷ 2 ∷ 4 ∷ 3 ∷ [] }
    ensures alike { stage (source (2 ∷ 3 ∷ []) 10) alike ≡ Ok found_in_four }
    ensures other { stage (source (2 ∷ 3 ∷ []) 10) other ≡ Ok (2 ∷ 3 ∷ [], (2, Some (4 ∷ [])) ∷ (4, Some (3 ∷ [])) ∷ (3, Some []) ∷ []) }
    ensures fault { stage (source (6 ∷ 3 ∷ 7 ∷ []) 10) four ≡ Err (Unknown 6) }
    ensures reads { ReadsOnly ask (Gives stage) reads }
{}

/// The language of this check meets all that is asked of it, and so the law of reading; and a build over the store of
/// a tree in which one module was another checks that module alone.
pub fn linking_is_lawful()
    ensures exact { IsExact linking }
    ensures composed { (trees : List (Tree ℕ ℕ Source)) → IsComposed linking checking trees }
    ensures kept { (trees : List (Tree ℕ ℕ Source)) → IsKept linking checking trees }
    ensures compared { (trees : List (Tree ℕ ℕ Source)) → IsCompared linking checking trees }
    ensures law { (trees : List (Tree ℕ ℕ Source)) → LawOfReading linking trees }
    ensures rebuilt { incremental linking (store_after linking [] (three 20)) (three 21) ≡ (3, record { how = Current; outcome = Sound face_of_3 }) ∷ (2, record { how = Checked OtherSource; outcome = Sound (face_of_2 21) }) ∷ (1, record { how = Current; outcome = Sound face_of_1 }) ∷ [] }
{}

/// A module that stops importing another makes those that read it be checked anew. A language that compares no usage
/// keeps what a clean build wouldn't give.
pub fn a_usage_that_is_not_compared()
    ensures compared { incremental linking (store_after linking [] (three 20)) rewired ≡ (2, record { how = Checked OtherSource; outcome = Sound (face [] 20) }) ∷ (1, record { how = Checked OtherUse; outcome = Sound new_face_of_1 }) ∷ (3, record { how = Current; outcome = Sound face_of_3 }) ∷ [] }
    ensures forgotten { incremental forgetting (store_after forgetting [] (three 20)) rewired ≡ (2, record { how = Checked OtherSource; outcome = Sound (face [] 20) }) ∷ (1, record { how = Current; outcome = Sound face_of_1 }) ∷ (3, record { how = Current; outcome = Sound face_of_3 }) ∷ [] }
    ensures clean { clean forgetting rewired ≡ (2, Sound (face [] 20)) ∷ (1, Sound new_face_of_1) ∷ (3, Sound face_of_3) ∷ [] }
{}
