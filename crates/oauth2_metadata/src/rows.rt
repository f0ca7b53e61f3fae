//! The members of metadata that are not extra fields, as rows: the issuer, and then the groups.

ghost use Rattle.std.specs.Prelude.{◌≡◌, ◌++◌, map, IfOk};
ghost use Rattle.oauth2_body_members.specs.Table.{names_of};
ghost use Rattle.oauth2_metadata.specs.Metadata.{EndpointMembers, endpoint_table, endpoint_in};
ghost use Rattle.oauth2_metadata.specs.Metadata.{endpoint_rows, SupportedMembers};
ghost use Rattle.oauth2_metadata.specs.Metadata.{supported_table, supported_in, supported_rows};
ghost use Rattle.oauth2_metadata.specs.Metadata.{AuthMethodMembers, auth_method_table};
ghost use Rattle.oauth2_metadata.specs.Metadata.{auth_method_in, auth_method_rows};
ghost use Rattle.oauth2_metadata.specs.Metadata.{SigningAlgorithmMembers, signing_algorithm_table};
ghost use Rattle.oauth2_metadata.specs.Metadata.{signing_algorithm_in, signing_algorithm_rows};
ghost use Rattle.oauth2_metadata.specs.Metadata.{PageMembers, page_table, page_in, page_rows};
ghost use Rattle.oauth2_metadata.specs.Metadata.{ServiceMembers, service_table, service_in};
ghost use Rattle.oauth2_metadata.specs.Metadata.{service_rows};
ghost use Rattle.oauth2_metadata.specs.private.Groups.{endpoints_depend, supported_depends};
ghost use Rattle.oauth2_metadata.specs.private.Groups.{auth_methods_depend, pages_depend};
ghost use Rattle.oauth2_metadata.specs.private.Groups.{signing_algorithms_depend, services_depend};

use crate::groups::{
    AuthMethods, MetadataEndpoints, Pages, Services, SigningAlgorithms, Supported,
};
use oauth2_body_members::Object;
use oauth2_json::ReadError;
use oauth2_member_rows::{
    Member, Needed, Optional, OptionalFlag, OptionalText, OptionalTextList, Rows, WriteRows,
};
use oauth2_urls::{AuthUrl, DeviceAuthorizationUrl, IntrospectionUrl, RevocationUrl, TokenUrl};
use serde_json::{Map, Value};
use std::alloc::{AllocError, Global};
use std::marker::PhantomData;

// These rows as one list: nested pairs that end with the unit.
macro_rules! list {
    () => { () };
    ($first:expr $(, $later:expr)*) => { ($first, list![$($later),*]) };
}

// All members: the issuer, and the groups.
pub(crate) const ROWS: (
    Member<Needed<String>>,
    (
        EndpointRows,
        (
            SupportedRows,
            (
                AuthMethodRows,
                (SigningAlgorithmRows, (PageRows, ServiceRows)),
            ),
        ),
    ),
) = (
    Member("issuer", PhantomData),
    (
        EndpointRows,
        (
            SupportedRows,
            (
                AuthMethodRows,
                (SigningAlgorithmRows, (PageRows, ServiceRows)),
            ),
        ),
    ),
);

// Adds these names to a list.
fn push_each(list: &mut Vec<&'static str>, names: &[&'static str]) -> Result<(), AllocError>
    ensures { IfOk result (λ _. map (λ name. name.now) list.new.items
        ≡ map (λ name. name.now) list.old.items ++ map (λ name. name.now) names.now) }
{
    Ok(list.extend_from_slice(names)?)
}

macro_rules! endpoint_list {
    () => {
        list![
            Member::<Optional<AuthUrl>>("authorization_endpoint", PhantomData),
            Member::<Optional<TokenUrl>>("token_endpoint", PhantomData),
            Member::<Optional<DeviceAuthorizationUrl>>("device_authorization_endpoint", PhantomData),
            Member::<Optional<IntrospectionUrl>>("introspection_endpoint", PhantomData),
            Member::<Optional<RevocationUrl>>("revocation_endpoint", PhantomData)
        ]
    };
}

// The rows of the endpoints that this client calls.
pub(crate) struct EndpointRows;

impl Rows for EndpointRows {
    type Values = MetadataEndpoints;

    ghost Meaning = { EndpointMembers };

    ghost meaning = { λ e. e };

    ghost names = { λ _. names_of endpoint_table };

    ghost reading = { λ _ ms. endpoint_in ms };

    ghost depends = { λ _. endpoints_depend };

    fn read(&self, alloc: Global, object: &mut Object<'_>) -> Result<MetadataEndpoints, ReadError> {
        let values = endpoint_list!().read(alloc, object)?;
        let (
            authorization_endpoint,
            (
                token_endpoint,
                (
                    device_authorization_endpoint,
                    (introspection_endpoint, (revocation_endpoint, ())),
                ),
            ),
        ) = values;
        Ok(MetadataEndpoints {
            authorization_endpoint,
            token_endpoint,
            device_authorization_endpoint,
            introspection_endpoint,
            revocation_endpoint,
        })
    }

    fn push_names(&self, list: &mut Vec<&'static str>) -> Result<(), AllocError> {
        let names = [
            "authorization_endpoint",
            "token_endpoint",
            "device_authorization_endpoint",
            "introspection_endpoint",
            "revocation_endpoint",
        ];
        push_each(list, &names)
    }
}

impl WriteRows<&MetadataEndpoints> for EndpointRows {
    ghost Values = { EndpointMembers };

    ghost values_of = { λ e. e.now };

    ghost written = { λ _ e. endpoint_rows e };

    #[tactic(auto, unfolding(crate::specs::Metadata::endpoint_rows))]
    fn put(
        &self,
        alloc: Global,
        endpoints: &MetadataEndpoints,
        members: &mut Map<String, Value>,
    ) -> Result<(), AllocError> {
        let values = list![
            &endpoints.authorization_endpoint,
            &endpoints.token_endpoint,
            &endpoints.device_authorization_endpoint,
            &endpoints.introspection_endpoint,
            &endpoints.revocation_endpoint
        ];
        endpoint_list!().put(alloc, values, members)
    }
}

macro_rules! supported_list {
    () => {
        list![
            Member::<OptionalTextList>("scopes_supported", PhantomData),
            Member::<OptionalTextList>("response_types_supported", PhantomData),
            Member::<OptionalTextList>("response_modes_supported", PhantomData),
            Member::<OptionalTextList>("grant_types_supported", PhantomData),
            Member::<OptionalTextList>("code_challenge_methods_supported", PhantomData)
        ]
    };
}

// The rows of what the server supports.
pub(crate) struct SupportedRows;

impl Rows for SupportedRows {
    type Values = Supported;

    ghost Meaning = { SupportedMembers };

    ghost meaning = { λ s. s };

    ghost names = { λ _. names_of supported_table };

    ghost reading = { λ _ ms. supported_in ms };

    ghost depends = { λ _. supported_depends };

    fn read(&self, alloc: Global, object: &mut Object<'_>) -> Result<Supported, ReadError> {
        let values = supported_list!().read(alloc, object)?;
        let (
            scopes_supported,
            (
                response_types_supported,
                (
                    response_modes_supported,
                    (grant_types_supported, (code_challenge_methods_supported, ())),
                ),
            ),
        ) = values;
        Ok(Supported {
            scopes_supported,
            response_types_supported,
            response_modes_supported,
            grant_types_supported,
            code_challenge_methods_supported,
        })
    }

    fn push_names(&self, list: &mut Vec<&'static str>) -> Result<(), AllocError> {
        let names = [
            "scopes_supported",
            "response_types_supported",
            "response_modes_supported",
            "grant_types_supported",
            "code_challenge_methods_supported",
        ];
        push_each(list, &names)
    }
}

impl WriteRows<&Supported> for SupportedRows {
    ghost Values = { SupportedMembers };

    ghost values_of = { λ s. s.now };

    ghost written = { λ _ s. supported_rows s };

    #[tactic(auto, unfolding(crate::specs::Metadata::supported_rows))]
    fn put(
        &self,
        alloc: Global,
        supported: &Supported,
        members: &mut Map<String, Value>,
    ) -> Result<(), AllocError> {
        let values = list![
            &supported.scopes_supported,
            &supported.response_types_supported,
            &supported.response_modes_supported,
            &supported.grant_types_supported,
            &supported.code_challenge_methods_supported
        ];
        supported_list!().put(alloc, values, members)
    }
}

macro_rules! auth_method_list {
    () => {
        list![
            Member::<OptionalTextList>("token_endpoint_auth_methods_supported", PhantomData),
            Member::<OptionalTextList>("introspection_endpoint_auth_methods_supported", PhantomData),
            Member::<OptionalTextList>("revocation_endpoint_auth_methods_supported", PhantomData)
        ]
    };
}

// The rows of the client authentication methods.
pub(crate) struct AuthMethodRows;

impl Rows for AuthMethodRows {
    type Values = AuthMethods;

    ghost Meaning = { AuthMethodMembers };

    ghost meaning = { λ m. m };

    ghost names = { λ _. names_of auth_method_table };

    ghost reading = { λ _ ms. auth_method_in ms };

    ghost depends = { λ _. auth_methods_depend };

    fn read(&self, alloc: Global, object: &mut Object<'_>) -> Result<AuthMethods, ReadError> {
        let values = auth_method_list!().read(alloc, object)?;
        let (
            token_endpoint_auth_methods_supported,
            (
                introspection_endpoint_auth_methods_supported,
                (revocation_endpoint_auth_methods_supported, ()),
            ),
        ) = values;
        Ok(AuthMethods {
            token_endpoint_auth_methods_supported,
            introspection_endpoint_auth_methods_supported,
            revocation_endpoint_auth_methods_supported,
        })
    }

    fn push_names(&self, list: &mut Vec<&'static str>) -> Result<(), AllocError> {
        let names = [
            "token_endpoint_auth_methods_supported",
            "introspection_endpoint_auth_methods_supported",
            "revocation_endpoint_auth_methods_supported",
        ];
        push_each(list, &names)
    }
}

impl WriteRows<&AuthMethods> for AuthMethodRows {
    ghost Values = { AuthMethodMembers };

    ghost values_of = { λ m. m.now };

    ghost written = { λ _ m. auth_method_rows m };

    #[tactic(auto, unfolding(crate::specs::Metadata::auth_method_rows))]
    fn put(
        &self,
        alloc: Global,
        methods: &AuthMethods,
        members: &mut Map<String, Value>,
    ) -> Result<(), AllocError> {
        let values = list![
            &methods.token_endpoint_auth_methods_supported,
            &methods.introspection_endpoint_auth_methods_supported,
            &methods.revocation_endpoint_auth_methods_supported
        ];
        auth_method_list!().put(alloc, values, members)
    }
}

macro_rules! signing_algorithm_list {
    () => {
        list![
            Member::<OptionalTextList>("token_endpoint_auth_signing_alg_values_supported", PhantomData),
            Member::<OptionalTextList>("introspection_endpoint_auth_signing_alg_values_supported", PhantomData),
            Member::<OptionalTextList>("revocation_endpoint_auth_signing_alg_values_supported", PhantomData)
        ]
    };
}

// The rows of the algorithms for the JWT of a client's authentication.
pub(crate) struct SigningAlgorithmRows;

impl Rows for SigningAlgorithmRows {
    type Values = SigningAlgorithms;

    ghost Meaning = { SigningAlgorithmMembers };

    ghost meaning = { λ a. a };

    ghost names = { λ _. names_of signing_algorithm_table };

    ghost reading = { λ _ ms. signing_algorithm_in ms };

    ghost depends = { λ _. signing_algorithms_depend };

    fn read(&self, alloc: Global, object: &mut Object<'_>) -> Result<SigningAlgorithms, ReadError> {
        let values = signing_algorithm_list!().read(alloc, object)?;
        let (
            token_endpoint_auth_signing_alg_values_supported,
            (
                introspection_endpoint_auth_signing_alg_values_supported,
                (revocation_endpoint_auth_signing_alg_values_supported, ()),
            ),
        ) = values;
        Ok(SigningAlgorithms {
            token_endpoint_auth_signing_alg_values_supported,
            introspection_endpoint_auth_signing_alg_values_supported,
            revocation_endpoint_auth_signing_alg_values_supported,
        })
    }

    fn push_names(&self, list: &mut Vec<&'static str>) -> Result<(), AllocError> {
        let names = [
            "token_endpoint_auth_signing_alg_values_supported",
            "introspection_endpoint_auth_signing_alg_values_supported",
            "revocation_endpoint_auth_signing_alg_values_supported",
        ];
        push_each(list, &names)
    }
}

impl WriteRows<&SigningAlgorithms> for SigningAlgorithmRows {
    ghost Values = { SigningAlgorithmMembers };

    ghost values_of = { λ a. a.now };

    ghost written = { λ _ a. signing_algorithm_rows a };

    #[tactic(auto, unfolding(crate::specs::Metadata::signing_algorithm_rows))]
    fn put(
        &self,
        alloc: Global,
        algorithms: &SigningAlgorithms,
        members: &mut Map<String, Value>,
    ) -> Result<(), AllocError> {
        let values = list![
            &algorithms.token_endpoint_auth_signing_alg_values_supported,
            &algorithms.introspection_endpoint_auth_signing_alg_values_supported,
            &algorithms.revocation_endpoint_auth_signing_alg_values_supported
        ];
        signing_algorithm_list!().put(alloc, values, members)
    }
}

macro_rules! page_list {
    () => {
        list![
            Member::<OptionalText>("service_documentation", PhantomData),
            Member::<OptionalTextList>("ui_locales_supported", PhantomData),
            Member::<OptionalText>("op_policy_uri", PhantomData),
            Member::<OptionalText>("op_tos_uri", PhantomData)
        ]
    };
}

// The rows of the pages, and the languages of the user interface.
pub(crate) struct PageRows;

impl Rows for PageRows {
    type Values = Pages;

    ghost Meaning = { PageMembers };

    ghost meaning = { λ p. p };

    ghost names = { λ _. names_of page_table };

    ghost reading = { λ _ ms. page_in ms };

    ghost depends = { λ _. pages_depend };

    fn read(&self, alloc: Global, object: &mut Object<'_>) -> Result<Pages, ReadError> {
        let values = page_list!().read(alloc, object)?;
        let (service_documentation, (ui_locales_supported, (op_policy_uri, (op_tos_uri, ())))) =
            values;
        Ok(Pages {
            service_documentation,
            ui_locales_supported,
            op_policy_uri,
            op_tos_uri,
        })
    }

    fn push_names(&self, list: &mut Vec<&'static str>) -> Result<(), AllocError> {
        let names = [
            "service_documentation",
            "ui_locales_supported",
            "op_policy_uri",
            "op_tos_uri",
        ];
        push_each(list, &names)
    }
}

impl WriteRows<&Pages> for PageRows {
    ghost Values = { PageMembers };

    ghost values_of = { λ p. p.now };

    ghost written = { λ _ p. page_rows p };

    #[tactic(auto, unfolding(crate::specs::Metadata::page_rows))]
    fn put(
        &self,
        alloc: Global,
        pages: &Pages,
        members: &mut Map<String, Value>,
    ) -> Result<(), AllocError> {
        let values = list![
            &pages.service_documentation,
            &pages.ui_locales_supported,
            &pages.op_policy_uri,
            &pages.op_tos_uri
        ];
        page_list!().put(alloc, values, members)
    }
}

macro_rules! service_list {
    () => {
        list![
            Member::<OptionalText>("registration_endpoint", PhantomData),
            Member::<OptionalText>("jwks_uri", PhantomData),
            Member::<OptionalText>("signed_metadata", PhantomData),
            Member::<OptionalFlag>("authorization_response_iss_parameter_supported", PhantomData)
        ]
    };
}

// The rows of the registration, the keys, the metadata as a signed JWT, and `iss` in redirects.
pub(crate) struct ServiceRows;

impl Rows for ServiceRows {
    type Values = Services;

    ghost Meaning = { ServiceMembers };

    ghost meaning = { λ s. s };

    ghost names = { λ _. names_of service_table };

    ghost reading = { λ _ ms. service_in ms };

    ghost depends = { λ _. services_depend };

    fn read(&self, alloc: Global, object: &mut Object<'_>) -> Result<Services, ReadError> {
        let values = service_list!().read(alloc, object)?;
        let (
            registration_endpoint,
            (jwks_uri, (signed_metadata, (authorization_response_iss_parameter_supported, ()))),
        ) = values;
        Ok(Services {
            registration_endpoint,
            jwks_uri,
            signed_metadata,
            authorization_response_iss_parameter_supported,
        })
    }

    fn push_names(&self, list: &mut Vec<&'static str>) -> Result<(), AllocError> {
        let names = [
            "registration_endpoint",
            "jwks_uri",
            "signed_metadata",
            "authorization_response_iss_parameter_supported",
        ];
        push_each(list, &names)
    }
}

impl WriteRows<&Services> for ServiceRows {
    ghost Values = { ServiceMembers };

    ghost values_of = { λ s. s.now };

    ghost written = { λ _ s. service_rows s };

    #[tactic(auto, unfolding(crate::specs::Metadata::service_rows))]
    fn put(
        &self,
        alloc: Global,
        services: &Services,
        members: &mut Map<String, Value>,
    ) -> Result<(), AllocError> {
        let values = list![
            &services.registration_endpoint,
            &services.jwks_uri,
            &services.signed_metadata,
            &services.authorization_response_iss_parameter_supported
        ];
        service_list!().put(alloc, values, members)
    }
}
