//! Laws of the definitions, each the contract of a function that does nothing.

ghost use Rattle.std.specs.Prelude.{◌≡◌, ◌++◌, ℕ, List, [], Option, Ok};
ghost use Rattle.tcap_component.specs.Component.{ComponentParts, InRange, SpellsComponent};
ghost use Rattle.tcap_component.specs.ComponentFault.{FaultParts, IsComponentFault};
ghost use Rattle.tcap_component.specs.ComponentList.{FirstFault, items};
ghost use Rattle.tcap_component.specs.ComponentReading.{component_at, components_of};
ghost use Rattle.tcap_component.specs.declared.problem.general_problem.TheConstants as general_constant;
ghost use Rattle.tcap_component.specs.declared.problem.invoke_problem.TheConstants as invoke_constant;
ghost use Rattle.tcap_component.specs.declared.problem.return_result_problem.TheConstants as return_result_constant;
ghost use Rattle.tcap_component.specs.declared.problem.return_error_problem.TheConstants as return_error_constant;
ghost use Rattle.tcap_component.specs.ProblemCodes.{GeneralProblem, general_code, InvokeProblem, invoke_code, ReturnResultProblem, return_result_code, ReturnErrorProblem, return_error_code};
ghost use Rattle.tcap_component.specs.Written.{written_component, CanWriteComponent};

/// The named codes of problems are those of the tables (Q.773, Problem).
pub fn problem_codes()
    ensures general { (general_constant.UNRECOGNIZED_COMPONENT ≡ general_code GeneralProblem.unrecognized_component)
        × (general_constant.MISTYPED_COMPONENT ≡ general_code GeneralProblem.mistyped_component)
        × (general_constant.BADLY_STRUCTURED_COMPONENT ≡ general_code GeneralProblem.badly_structured_component) }
    ensures invoke { (invoke_constant.DUPLICATE_INVOKE_ID ≡ invoke_code InvokeProblem.duplicate_invoke_id)
        × (invoke_constant.UNRECOGNIZED_OPERATION ≡ invoke_code InvokeProblem.unrecognized_operation)
        × (invoke_constant.MISTYPED_PARAMETER ≡ invoke_code InvokeProblem.mistyped_parameter)
        × (invoke_constant.RESOURCE_LIMITATION ≡ invoke_code InvokeProblem.resource_limitation)
        × (invoke_constant.INITIATING_RELEASE ≡ invoke_code InvokeProblem.initiating_release)
        × (invoke_constant.UNRECOGNIZED_LINKED_ID ≡ invoke_code InvokeProblem.unrecognized_linked_id)
        × (invoke_constant.LINKED_RESPONSE_UNEXPECTED ≡ invoke_code InvokeProblem.linked_response_unexpected)
        × (invoke_constant.UNEXPECTED_LINKED_OPERATION ≡ invoke_code InvokeProblem.unexpected_linked_operation) }
    ensures return_result { (return_result_constant.UNRECOGNIZED_INVOKE_ID
        ≡ return_result_code ReturnResultProblem.unrecognized_invoke_id)
        × (return_result_constant.RETURN_RESULT_UNEXPECTED ≡ return_result_code ReturnResultProblem.return_result_unexpected)
        × (return_result_constant.MISTYPED_PARAMETER ≡ return_result_code ReturnResultProblem.mistyped_parameter) }
    ensures return_error { (return_error_constant.UNRECOGNIZED_INVOKE_ID
        ≡ return_error_code ReturnErrorProblem.unrecognized_invoke_id)
        × (return_error_constant.RETURN_ERROR_UNEXPECTED ≡ return_error_code ReturnErrorProblem.return_error_unexpected)
        × (return_error_constant.UNRECOGNIZED_ERROR ≡ return_error_code ReturnErrorProblem.unrecognized_error)
        × (return_error_constant.UNEXPECTED_ERROR ≡ return_error_code ReturnErrorProblem.unexpected_error)
        × (return_error_constant.MISTYPED_PARAMETER ≡ return_error_code ReturnErrorProblem.mistyped_parameter) }
{}

/// Bytes spell at most one component, and no component's octets are a proper prefix of another's
/// (Q.773, Component portion).
pub fn one_component()
    ensures one { (c d : ComponentParts) (bytes : List ℕ) → SpellsComponent c bytes
        → SpellsComponent d bytes → c ≡ d }
    ensures no_prefix { (c d : ComponentParts) (v w x y : List ℕ) → SpellsComponent c v
        → SpellsComponent d w → v ++ x ≡ w ++ y → (c ≡ d) × (v ≡ w) × (x ≡ y) }
{}

/// Bytes have at most one fault, and where they have one no component stands first (our own).
pub fn one_fault()
    ensures one { (bytes : List ℕ) (f g : FaultParts) → IsComponentFault bytes f
        → IsComponentFault bytes g → f ≡ g }
    ensures no_component { (c : ComponentParts) (whole rest : List ℕ) (f : FaultParts)
        → SpellsComponent c whole → IsComponentFault (whole ++ rest) f → ⊥ }
{}

/// A content has exactly one list of components before the first fault and exactly one such fault, or
/// none; the items that are read are these (our own).
pub fn first_fault()
    ensures is { (content : List ℕ) → (cs : List ComponentParts)
        × (f : Option FaultParts) × FirstFault cs f content × (components_of content ≡ items cs f) }
    ensures only { (cs : List ComponentParts) (f : Option FaultParts) (content : List ℕ)
        → FirstFault cs f content → components_of content ≡ items cs f }
{}

/// What is written spells the component, and reading it gives it back and leaves nothing
/// (Q.773, Component portion).
pub fn written_component()
    ensures spelled { (c : ComponentParts) → InRange c → CanWriteComponent c
        → SpellsComponent c (written_component c) }
    ensures read { (c : ComponentParts) → InRange c → CanWriteComponent c
        → component_at (written_component c) ≡ Ok (c, []) }
{}
