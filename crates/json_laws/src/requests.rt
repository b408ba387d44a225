//! Of requests.
ghost use Rattle.std.specs.Prelude.{◌≡◌, Ok};
ghost use Rattle.etcd_types.specs.declared.request.Request.{Request};
ghost use Rattle.json_model.specs.declared.extra.Reading.TheVariants.{Client, Call};
ghost use Rattle.json_model.specs.Fits.{RequestFits, RequestServed};
ghost use Rattle.json_model.specs.Mapping.{request_of};
ghost use Rattle.json_model.specs.Paths.{path_text};
ghost use Rattle.json_model.specs.WrittenRequests.{request_path, request_text};

/// A law: the path and the text of a request are read as the request, by a store always and by a client's reader where it
/// serves the request. `RequestFits` says that the request's numbers and enums are in the API's ranges, that each compare
/// has nothing in the operand that its target doesn't use, and that the text nests no deeper than JSON may.
/// `RequestServed Client` says that no put ignores its lease and that no transaction stands within another.
pub fn requests_are_read_back()
    ensures by_a_store { (request : Request) → RequestFits request
        → request_of Call (path_text (request_path request)) (request_text request) ≡ Ok request }
    ensures by_a_client { (request : Request) → RequestFits request → RequestServed Client request
        → request_of Client (path_text (request_path request)) (request_text request) ≡ Ok request }
{}
