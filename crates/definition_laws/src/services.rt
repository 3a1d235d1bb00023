//! Registries of several tenants: each tenant is served as if it were alone.

ghost use Rattle.definition_laws.specs.Services.{CallsAnswerTheirTenant, UnknownKeysAreRefused, OtherRegistriesStay, TenantsHaveTheirCourses, TenantsHaveTheirReplies, UnknownKeysStayUnknown, CoursesGoOn, NewServersAreKept, CallsKeepRegistries};

/// What a tenant's call is answered is an answer of its own registry, or is refused for room.
pub fn calls_answer_their_tenant()
    ensures { CallsAnswerTheirTenant }
{}

/// A call by a key that no tenant has is answered UnknownTenant, always, and changes nothing.
pub fn unknown_keys_are_refused()
    ensures { UnknownKeysAreRefused }
{}

/// A call leaves the registries of all other keys as they were.
pub fn other_registries_stay()
    ensures { OtherRegistriesStay }
{}

/// Whatever other tenants ask, a tenant's replies are a course of its own requests, from its own registry on.
pub fn tenants_have_their_courses()
    ensures { TenantsHaveTheirCourses }
{}

/// Where none of them is refused for room, they are the replies to its own requests alone.
pub fn tenants_have_their_replies()
    ensures { TenantsHaveTheirReplies }
{}

/// A key that no tenant has is answered UnknownTenant at each of its places.
pub fn unknown_keys_stay_unknown()
    ensures { UnknownKeysStayUnknown }
{}

/// A course of calls goes on by one answer.
pub fn courses_go_on()
    ensures { CoursesGoOn }
{}

/// Over a kept library, the registries of a new server are kept.
pub fn new_servers_are_kept()
    ensures { NewServersAreKept }
{}

/// Every course of calls leaves them kept.
pub fn calls_keep_registries()
    ensures { CallsKeepRegistries }
{}
