// What holds of all messages. There is no code here.
ghost use Rattle.std.specs.Prelude.{◌≡◌, ℕ, List, Option, Ok, codes};
ghost use Rattle.asl_json_data.specs.Data.{Data};
ghost use Rattle.asl_json_data.specs.Compact.{compact};
ghost use Rattle.asl_json.specs.declared.value.Json.{Json};
ghost use Rattle.asl_json.specs.Meaning.{value_in};
ghost use Rattle.asl_json_rpc.specs.declared.id.Id.{Id};
ghost use Rattle.asl_json_rpc.specs.declared.incoming.Incoming.{Incoming};
ghost use Rattle.asl_json_rpc.specs.declared.code.ErrorCode.{ErrorCode};
ghost use Rattle.asl_json_rpc.specs.Calls.{call_of};
ghost use Rattle.asl_json_rpc.specs.Printing.{result_text, error_text, notification_text, result_data, error_data, notification_data};

/// What is sent is the compact text of a JSON value.
pub fn what_is_sent_is_json()
    ensures results { (i : Id) (d : Data) → result_text i d ≡ compact (result_data i d) }
    ensures errors { (i : Id) (c : ErrorCode) (m : List ℕ) → error_text i c m
        ≡ compact (error_data i c m) }
    ensures notifications { (m : List ℕ) (p : Data) → notification_text m p
        ≡ compact (notification_data m p) }
{}

/// The id of a response is the value that the request has for its id, with its spelling.
pub fn a_response_has_the_id_of_its_request()
    ensures results { (d : Data) (i : Id) (m : List ℕ) (p : Option Json) (r : Data)
        → call_of d ≡ Ok (Incoming.Request i m p)
        → value_in (codes "id") (result_data i r) ≡ value_in (codes "id") d }
    ensures errors { (d : Data) (i : Id) (m : List ℕ) (p : Option Json) (c : ErrorCode) (t : List ℕ)
        → call_of d ≡ Ok (Incoming.Request i m p)
        → value_in (codes "id") (error_data i c t) ≡ value_in (codes "id") d }
{}
