// Laws of accepted specifications.
ghost use Rattle.std.specs.Prelude.{◌≡◌, List, None};
ghost use Rattle.pgo_base.specs.Data.{Data};
ghost use Rattle.pgo_base.specs.Lookup.{Name};
ghost use Rattle.pgo_syntax.specs.declared.spec.Spec.{Spec};
ghost use Rattle.pgo_scope.specs.Refusal.{scope_refusal};
ghost use Rattle.pgo_labels.specs.Refusal.{label_refusal};
ghost use Rattle.pgo_bound.specs.Sound.{WellNamed};
ghost use Rattle.pgo_heads.specs.Refusals.{bind_refusal};
ghost use Rattle.pgo_meaning.specs.LabelSections.{AreUnlabelled};

/// A specification that the rules of names, of labels and of binding let pass is well named: its variables differ, its
/// processes differ, each has its archetype with as many arguments as parameters, and each archetype's first statement has
/// a label.
///
/// Of binding only the third rule is needed, by which no `ref` parameter is handed an expression: rule 7 of names takes the
/// value parameters for variables, and binding the parameters that are handed a value.
pub fn accepted_is_well_named()
    ensures { (s : Spec) (consts : List (Name × Data)) → scope_refusal s ≡ None → label_refusal s ≡ None → bind_refusal s consts ≡ None → WellNamed s }
{}

/// No label stands in a macro of a specification that the rules of labels let pass.
pub fn no_label_stands_in_a_macro()
    ensures { (s : Spec) → label_refusal s ≡ None → AreUnlabelled s.macros }
{}
