//! The two names of each field of requests, some of which replies have too, and the names of enums.
/// A field's two names: the plain one of the API, as `range_end`, and the lowerCamelCase one, as `rangeEnd`.
#[derive(Clone, Copy, Debug, PartialEq, Eq)]
pub struct Names {
    pub plain: &'static str,
    pub camel: &'static str,
}

pub const KEY: Names = Names {
    plain: "key",
    camel: "key",
};

pub const RANGE_END: Names = Names {
    plain: "range_end",
    camel: "rangeEnd",
};

pub const LIMIT: Names = Names {
    plain: "limit",
    camel: "limit",
};

pub const REVISION: Names = Names {
    plain: "revision",
    camel: "revision",
};

pub const SORT_ORDER: Names = Names {
    plain: "sort_order",
    camel: "sortOrder",
};

pub const SORT_TARGET: Names = Names {
    plain: "sort_target",
    camel: "sortTarget",
};

pub const SERIALIZABLE: Names = Names {
    plain: "serializable",
    camel: "serializable",
};

pub const KEYS_ONLY: Names = Names {
    plain: "keys_only",
    camel: "keysOnly",
};

pub const COUNT_ONLY: Names = Names {
    plain: "count_only",
    camel: "countOnly",
};

pub const MIN_MOD: Names = Names {
    plain: "min_mod_revision",
    camel: "minModRevision",
};

pub const MAX_MOD: Names = Names {
    plain: "max_mod_revision",
    camel: "maxModRevision",
};

pub const MIN_CREATE: Names = Names {
    plain: "min_create_revision",
    camel: "minCreateRevision",
};

pub const MAX_CREATE: Names = Names {
    plain: "max_create_revision",
    camel: "maxCreateRevision",
};

pub const VALUE: Names = Names {
    plain: "value",
    camel: "value",
};

pub const LEASE: Names = Names {
    plain: "lease",
    camel: "lease",
};

pub const PREV_KV: Names = Names {
    plain: "prev_kv",
    camel: "prevKv",
};

pub const IGNORE_VALUE: Names = Names {
    plain: "ignore_value",
    camel: "ignoreValue",
};

pub const IGNORE_LEASE: Names = Names {
    plain: "ignore_lease",
    camel: "ignoreLease",
};

pub const PHYSICAL: Names = Names {
    plain: "physical",
    camel: "physical",
};

pub const TTL: Names = Names {
    plain: "TTL",
    camel: "TTL",
};

pub const ID: Names = Names {
    plain: "ID",
    camel: "ID",
};

pub const KEYS: Names = Names {
    plain: "keys",
    camel: "keys",
};

pub const COMPARE: Names = Names {
    plain: "compare",
    camel: "compare",
};

pub const SUCCESS: Names = Names {
    plain: "success",
    camel: "success",
};

pub const FAILURE: Names = Names {
    plain: "failure",
    camel: "failure",
};

pub const RESULT: Names = Names {
    plain: "result",
    camel: "result",
};

pub const TARGET: Names = Names {
    plain: "target",
    camel: "target",
};

pub const VERSION: Names = Names {
    plain: "version",
    camel: "version",
};

pub const CREATE_REVISION: Names = Names {
    plain: "create_revision",
    camel: "createRevision",
};

pub const MOD_REVISION: Names = Names {
    plain: "mod_revision",
    camel: "modRevision",
};

pub const REQUEST_RANGE: Names = Names {
    plain: "request_range",
    camel: "requestRange",
};

pub const REQUEST_PUT: Names = Names {
    plain: "request_put",
    camel: "requestPut",
};

pub const REQUEST_DELETE_RANGE: Names = Names {
    plain: "request_delete_range",
    camel: "requestDeleteRange",
};

pub const REQUEST_TXN: Names = Names {
    plain: "request_txn",
    camel: "requestTxn",
};

pub const CREATE_REQUEST: Names = Names {
    plain: "create_request",
    camel: "createRequest",
};

pub const CANCEL_REQUEST: Names = Names {
    plain: "cancel_request",
    camel: "cancelRequest",
};

pub const PROGRESS_REQUEST: Names = Names {
    plain: "progress_request",
    camel: "progressRequest",
};

pub const START_REVISION: Names = Names {
    plain: "start_revision",
    camel: "startRevision",
};

pub const PROGRESS_NOTIFY: Names = Names {
    plain: "progress_notify",
    camel: "progressNotify",
};

pub const FILTERS: Names = Names {
    plain: "filters",
    camel: "filters",
};

pub const WATCH_ID: Names = Names {
    plain: "watch_id",
    camel: "watchId",
};

pub const FRAGMENT: Names = Names {
    plain: "fragment",
    camel: "fragment",
};

// The names of enums, from number 0, with one space between two of them.

pub const SORT_ORDERS: &str = "NONE ASCEND DESCEND";

pub const SORT_TARGETS: &str = "KEY VERSION CREATE MOD VALUE";

pub const RELATIONS: &str = "EQUAL GREATER LESS NOT_EQUAL";

pub const TARGETS: &str = "VERSION CREATE MOD VALUE LEASE";

pub const FILTER_NAMES: &str = "NOPUT NODELETE";
